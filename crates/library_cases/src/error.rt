use sk_types::NoMemory;
use std::alloc::AllocError;
use thiserror::Error;

/// Why a line is not played.
#[derive(Debug, Drop, Error)]
pub enum CaseError {
    #[error("a line is of no known form")]
    Form,
    #[error("out of memory")]
    Memory,
}

impl From<NoMemory> for CaseError {
    fn from(_error: NoMemory) -> CaseError {
        CaseError::Memory
    }
}

impl From<AllocError> for CaseError {
    fn from(_error: AllocError) -> CaseError {
        CaseError::Memory
    }
}
