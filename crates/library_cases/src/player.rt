use crate::error::CaseError;
use crate::line::Line;
use crate::outcome::{of_request, of_step};
use message::Answer;
use service_exit::Leave;
use service_library::Library;
use sk_types::Handle;
use std::alloc::Global;

/// The handle of the service whose library it is.
const OWN: Handle = Handle(4);

/// The library of a history, and the ending that stands apart from it.
#[derive(Drop)]
pub struct Player {
    alloc: Global,
    library: Library,
    leave: Option<Leave>,
}

impl Player {
    pub fn new(alloc: Global) -> Player {
        Player {
            alloc,
            library: Library::new(alloc, OWN),
            leave: None,
        }
    }

    /// What comes of a line, to be printed after it.
    pub fn play(&mut self, text: &str) -> Result<String, CaseError> {
        let outcome = match Line::read(self.alloc, text)? {
            Line::Empty => return Ok(String::new(self.alloc)),
            Line::Title => {
                *self = Player::new(self.alloc);
                return Ok(String::new(self.alloc));
            }
            Line::Call(call) => of_step(self.alloc, &self.library.call(call)?)?,
            Line::Stop(stop) => of_step(self.alloc, &self.library.stopped(stop)?)?,
            Line::Leave(exit) => {
                self.leave = Some(Leave::new(OWN, exit));
                self.leaves(None)?
            }
            Line::Left(answer) => self.leaves(Some(&answer))?,
        };
        Ok(format!(in self.alloc; " -> {outcome}")?)
    }

    /// The next request of the ending, if one is left.
    fn leaves(&mut self, last: Option<&Answer>) -> Result<String, CaseError> {
        let Some(leave) = &mut self.leave else {
            return Err(CaseError::Form);
        };
        let text = match leave.next(self.alloc, last)? {
            Some(request) => of_request(self.alloc, &request)?,
            None => String::from_str(self.alloc, "no more")?,
        };
        Ok(text)
    }
}
