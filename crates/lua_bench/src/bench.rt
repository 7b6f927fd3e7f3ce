use crate::chunks::chunk;
use lua_chunk::LoadError;
use lua_machine::Stop;
use lua_value::{Value, Values};
use sk_types::{Bytes, NoMemory};
use std::alloc::Global;
use thiserror::Error;

/// The ticks of a run, more than any chunk takes in a day.
const TICKS: u64 = 1_000_000_000_000_000;

/// The units of a run's heap.
const UNITS: u64 = 1_000;

/// Why nothing is printed.
#[derive(Clone, Copy, Debug, PartialEq, Eq, Error)]
pub enum BenchError {
    #[error("usage: lua_bench fib|loop|nested COUNT")]
    Usage,
    #[error("{0}")]
    Load(LoadError),
    #[error("the chunk returned no integer")]
    NoInteger,
    #[error("out of memory")]
    Memory,
}

impl From<NoMemory> for BenchError {
    fn from(_error: NoMemory) -> BenchError {
        BenchError::Memory
    }
}

/// Runs the chunk that the first word names, with the count of the second.
pub fn run(alloc: Global, words: &[String]) -> Result<i64, BenchError> {
    let [name, count] = words else {
        return Err(BenchError::Usage);
    };
    let Some(source) = chunk(name.as_str()) else {
        return Err(BenchError::Usage);
    };
    let Ok(count) = count.parse::<i64>() else {
        return Err(BenchError::Usage);
    };
    let stop = stop(alloc, source, count)?;
    integer(stop)
}

/// Where a chunk stops that is given a count.
fn stop(alloc: Global, source: &[u8], count: i64) -> Result<Stop, BenchError> {
    let name = Bytes::from_slice(alloc, b"bench")?;
    let values = Values::one(alloc, Value::Int(count))?;
    match lua_chunk::run(alloc, source, name, TICKS, UNITS, values) {
        Ok(run) => Ok(run.stop),
        Err(error) => Err(BenchError::Load(error)),
    }
}

/// The integer that a chunk returned.
fn integer(stop: Stop) -> Result<i64, BenchError> {
    let Stop::Return(values) = stop else {
        return Err(BenchError::NoInteger);
    };
    match values.get(0) {
        Value::Int(value) => Ok(value),
        _ => Err(BenchError::NoInteger),
    }
}
