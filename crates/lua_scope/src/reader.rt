ghost use Rattle.std.specs.Prelude.{◌≡◌, OnOk, IfOk, map};
ghost use Rattle.lua_tree.specs.View.{exp_of, exps_of, operand_of, operands_of, suffix_of, suffixes_of, field_of, fields_of, body_of, block_of, stat_of, stats_of, target_of, targets_of, branch_of, numeric_of, generic_of, branches_of, else_of};
ghost use Rattle.lua_scope.specs.Scope.{closed};
ghost use Rattle.lua_scope.specs.Walk.{exp_read, exps_read, operands_read, suffix_read, suffixes_read, field_read, fields_read, body_read, block_read, stat_read, stats_read, target_read, targets_read, branches_read};
ghost use Rattle.lua_scope.specs.Branches.{branch_read, guarded_read, else_read, step_read};
ghost use Rattle.std.specs.Prelude.{option_map};

use crate::walk::Walk;
use lua_tree::{
    Block, Body, Branch, Expr, Field, GenericFor, NumericFor, Operand, Stat, Suffix, Target,
};
use sk_types::NoMemory;

#[cycle(reader)]
fn read_exp(walk: &mut Walk, e: &Expr) -> Result<(), NoMemory>
    ensures { OnOk result (walk.new ≡ exp_read (exp_of e.now) walk.old) }
{
    match e {
        Expr::Nil => Ok(()),
        Expr::False => Ok(()),
        Expr::True => Ok(()),
        Expr::Int(_) => Ok(()),
        Expr::Text(_) => Ok(()),
        Expr::Dots => Ok(()),
        Expr::Function(body) => read_body(walk, body.get()),
        Expr::Name(x) => walk.use_name(x),
        Expr::Paren(inner) => read_exp(walk, inner.get()),
        Expr::Table(fields) => read_fields(walk, fields.as_slice()),
        Expr::Suffixed(base, suffixes) => {
            read_exp(walk, base.get())?;
            read_suffixes(walk, suffixes.as_slice())
        }
        Expr::Unary(_, _, inner) => read_exp(walk, inner.get()),
        Expr::Chain(base, operands) => {
            read_exp(walk, base.get())?;
            read_operands(walk, operands.as_slice())
        }
    }
}

#[cycle(reader)]
fn read_exps(walk: &mut Walk, es: &[Expr]) -> Result<(), NoMemory>
    ensures { OnOk result (walk.new ≡ exps_read (exps_of (map exp_of es.now)) walk.old) }
{
    for e in es {
        read_exp(walk, e)?;
    }
    Ok(())
}

#[cycle(reader)]
fn read_operands(walk: &mut Walk, os: &[Operand]) -> Result<(), NoMemory>
    ensures { OnOk result (walk.new ≡ operands_read (operands_of (map operand_of os.now)) walk.old) }
{
    for o in os {
        read_exp(walk, &o.value)?;
    }
    Ok(())
}

#[cycle(reader)]
fn read_suffix(walk: &mut Walk, suffix: &Suffix) -> Result<(), NoMemory>
    ensures { OnOk result (walk.new ≡ suffix_read (suffix_of suffix.now) walk.old) }
{
    match suffix {
        Suffix::Index(key, _) => read_exp(walk, key),
        Suffix::Call(args, _) => read_exps(walk, args.as_slice()),
        Suffix::Method(_, _, args, _) => read_exps(walk, args.as_slice()),
    }
}

#[cycle(reader)]
fn read_suffixes(walk: &mut Walk, suffixes: &[Suffix]) -> Result<(), NoMemory>
    ensures { OnOk result (walk.new ≡ suffixes_read (suffixes_of (map suffix_of suffixes.now)) walk.old) }
{
    for suffix in suffixes {
        read_suffix(walk, suffix)?;
    }
    Ok(())
}

#[cycle(reader)]
fn read_field(walk: &mut Walk, field: &Field) -> Result<(), NoMemory>
    ensures { OnOk result (walk.new ≡ field_read (field_of field.now) walk.old) }
{
    match field {
        Field::Key(key, value) => {
            read_exp(walk, key)?;
            read_exp(walk, value)
        }
        Field::Item(value) => read_exp(walk, value),
    }
}

#[cycle(reader)]
fn read_fields(walk: &mut Walk, fields: &[Field]) -> Result<(), NoMemory>
    ensures { OnOk result (walk.new ≡ fields_read (fields_of (map field_of fields.now)) walk.old) }
{
    for field in fields {
        read_field(walk, field)?;
    }
    Ok(())
}

// A function: its parameters are locals of it, and go out of scope at its end.
#[cycle(reader)]
fn read_body(walk: &mut Walk, body: &Body) -> Result<(), NoMemory>
    ensures { OnOk result (walk.new ≡ body_read (body_of body.now) walk.old) }
{
    let names = walk.names();
    let outside = walk.outside();
    walk.enter();
    walk.declare_all(body.names.as_slice())?;
    read_block(walk, &body.block)?;
    walk.close(names, outside);
    Ok(())
}

#[cycle(reader)]
fn read_block(walk: &mut Walk, block: &Block) -> Result<(), NoMemory>
    ensures { OnOk result (walk.new ≡ block_read (block_of block.now) walk.old) }
{
    read_stats(walk, block.stats.as_slice())?;
    match &block.result {
        Some(es) => read_exps(walk, es.as_slice()),
        None => Ok(()),
    }
}

// A block whose locals go out of scope at its end.
#[cycle(reader)]
fn read_closed(walk: &mut Walk, block: &Block) -> Result<(), NoMemory>
    ensures { OnOk result (walk.new ≡ closed walk.old (block_read (block_of block.now) walk.old)) }
{
    let names = walk.names();
    let outside = walk.outside();
    read_block(walk, block)?;
    walk.close(names, outside);
    Ok(())
}

#[cycle(reader)]
fn read_stats(walk: &mut Walk, stats: &[Stat]) -> Result<(), NoMemory>
    ensures { OnOk result (walk.new ≡ stats_read (stats_of (map stat_of stats.now)) walk.old) }
{
    for stat in stats {
        read_stat(walk, stat)?;
    }
    Ok(())
}

#[cycle(reader)]
fn read_stat(walk: &mut Walk, stat: &Stat) -> Result<(), NoMemory>
    ensures { OnOk result (walk.new ≡ stat_read (stat_of stat.now) walk.old) }
{
    match stat {
        Stat::Assign(targets, values) => {
            read_targets(walk, targets.as_slice())?;
            read_exps(walk, values.as_slice())
        }
        Stat::Invoke(call) => read_exp(walk, call),
        Stat::Break => Ok(()),
        Stat::Do(block) => read_closed(walk, block),
        Stat::While(test, block) => {
            read_exp(walk, test)?;
            read_closed(walk, block)
        }
        Stat::Repeat(block, condition) => {
            // The condition sees the locals of the block.
            let names = walk.names();
            let outside = walk.outside();
            read_block(walk, block)?;
            read_exp(walk, condition)?;
            walk.close(names, outside);
            Ok(())
        }
        Stat::If(branches, other) => {
            if branches.is_empty() {
                return Ok(());
            }
            read_branches(walk, branches.as_slice())?;
            read_else(walk, other)
        }
        Stat::Numeric(numeric) => read_numeric(walk, numeric),
        Stat::Generic(generic) => read_generic(walk, generic),
        Stat::Local(names, values) => {
            read_exps(walk, values.as_slice())?;
            walk.declare_all(names.as_slice())
        }
        Stat::LocalFunction(name, body) => {
            walk.declare(name)?;
            read_body(walk, body)
        }
    }
}

#[cycle(reader)]
fn read_branch(walk: &mut Walk, branch: &Branch) -> Result<(), NoMemory>
    ensures { OnOk result (walk.new ≡ branch_read (branch_of branch.now) walk.old) }
{
    read_exp(walk, &branch.test)?;
    read_closed(walk, &branch.block)
}

#[cycle(reader)]
fn read_branches(walk: &mut Walk, branches: &[Branch]) -> Result<(), NoMemory>
    ensures { OnOk result (walk.new ≡ guarded_read (map branch_of branches.now) walk.old) }
{
    for branch in branches {
        read_branch(walk, branch)?;
    }
    Ok(())
}

#[cycle(reader)]
fn read_else(walk: &mut Walk, other: &Option<Block>) -> Result<(), NoMemory>
    ensures { OnOk result (walk.new ≡ else_read (option_map block_of other.now) walk.old) }
{
    match other {
        Some(block) => read_closed(walk, block),
        None => Ok(()),
    }
}

#[cycle(reader)]
fn read_step(walk: &mut Walk, step: &Option<Expr>) -> Result<(), NoMemory>
    ensures { OnOk result (walk.new ≡ step_read (option_map exp_of step.now) walk.old) }
{
    match step {
        Some(e) => read_exp(walk, e),
        None => Ok(()),
    }
}

#[cycle(reader)]
fn read_numeric(walk: &mut Walk, numeric: &NumericFor) -> Result<(), NoMemory>
    ensures { OnOk result (walk.new ≡ stat_read (numeric_of numeric.now) walk.old) }
{
    read_exp(walk, &numeric.first)?;
    read_exp(walk, &numeric.limit)?;
    read_step(walk, &numeric.step)?;
    let names = walk.names();
    let outside = walk.outside();
    walk.declare(&numeric.name)?;
    read_block(walk, &numeric.block)?;
    walk.close(names, outside);
    Ok(())
}

#[cycle(reader)]
fn read_generic(walk: &mut Walk, generic: &GenericFor) -> Result<(), NoMemory>
    ensures { OnOk result (walk.new ≡ stat_read (generic_of generic.now) walk.old) }
{
    read_exps(walk, generic.values.as_slice())?;
    let names = walk.names();
    let outside = walk.outside();
    walk.declare_all(generic.names.as_slice())?;
    read_block(walk, &generic.block)?;
    walk.close(names, outside);
    Ok(())
}

#[cycle(reader)]
fn read_target(walk: &mut Walk, target: &Target) -> Result<(), NoMemory>
    ensures { OnOk result (walk.new ≡ target_read (target_of target.now) walk.old) }
{
    match target {
        Target::Variable(x) => walk.use_name(x),
        Target::Element(table, key, _) => {
            read_exp(walk, table)?;
            read_exp(walk, key)
        }
    }
}

#[cycle(reader)]
fn read_targets(walk: &mut Walk, targets: &[Target]) -> Result<(), NoMemory>
    ensures { OnOk result (walk.new ≡ targets_read (targets_of (map target_of targets.now)) walk.old) }
{
    for target in targets {
        read_target(walk, target)?;
    }
    Ok(())
}

/// Reads a whole chunk.
pub fn read_chunk(walk: &mut Walk, block: &Block) -> Result<(), NoMemory>
    ensures { OnOk result (walk.new ≡ block_read (block_of block.now) walk.old) }
{
    read_block(walk, block)
}
