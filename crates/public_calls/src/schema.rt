//! Calls of `oim_schema`.

use oim_schema::{IntegerType, is_bounded_integer, joined_members};
use std::alloc::{AllocError, Global};

/// The least and the greatest byte, and their neighbors.
fn bounds_a_byte() -> bool {
    is_bounded_integer(IntegerType::Byte, "-128")
        && is_bounded_integer(IntegerType::Byte, "+00127")
        && !is_bounded_integer(IntegerType::Byte, "-129")
        && !is_bounded_integer(IntegerType::Byte, "128")
}

/// Checks how a set is written.
fn joins(alloc: Global) -> Result<bool, AllocError> {
    let joined = joined_members(alloc, "\txbrli:b  xbrli:a ")?;
    Ok(joined.as_str() == "xbrli:b xbrli:a")
}

#[test]
fn calls_of_schemas(rt: HostRuntime) {
    assert!(rt; bounds_a_byte() && joins(rt.alloc()) == Ok(true));
}
