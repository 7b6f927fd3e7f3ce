use crate::case::Case;
use crate::line::Line;
use std::alloc::Global;
use std::process::ExitCode;

/// How many outcomes of a section were as told, and whether any at all was not.
#[derive(Drop)]
pub struct Tally {
    section: String,
    cases: u32,
    unlike: bool,
}

impl Tally {
    pub fn new(alloc: Global) -> Tally {
        Tally {
            section: String::new(alloc),
            cases: 0,
            unlike: false,
        }
    }

    /// Takes a line of the table.
    pub fn turn(
        &mut self,
        rt: &HostRuntime,
        case: &mut Case,
        line: Line<'_>,
    ) -> anyhow::Result<()> {
        match line {
            Line::Section(name) => self.begin_section(rt, name)?,
            Line::Limits(words) => case.limit(words),
            Line::Given(words) => case.give(words)?,
            Line::Anew => case.renew(),
            Line::Wanted(wanted) => self.judge(rt, case, wanted)?,
            Line::Source(text) => case.add(text)?,
        }
        Ok(())
    }

    fn begin_section(&mut self, rt: &HostRuntime, name: &str) -> anyhow::Result<()> {
        self.end_section(rt)?;
        self.section = String::from_str(rt.alloc(), name)?;
        Ok(())
    }

    /// Prints how many cases of the section were as told.
    pub fn end_section(&mut self, rt: &HostRuntime) -> anyhow::Result<()> {
        if self.cases > 0 {
            println!(rt; "{}: {}", self.section, self.cases)?;
        }
        self.cases = 0;
        Ok(())
    }

    fn judge(&mut self, rt: &HostRuntime, case: &mut Case, wanted: &str) -> anyhow::Result<()> {
        let text = case.run()?;
        if text.as_str() == wanted {
            self.cases = self.cases.saturating_add(1);
            return Ok(());
        }
        self.unlike = true;
        println!(rt; "{}: {}, and not {}", self.section, text, wanted)?;
        Ok(())
    }

    /// The exit status: 1 where an outcome was not as told.
    pub fn status(&self) -> ExitCode {
        ExitCode::from(u8::from(self.unlike))
    }
}
