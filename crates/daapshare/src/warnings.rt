//! Warnings on standard error of what is accepted but looks wrong.

use crate::lines::tell_all;
use explanations::{meta_warnings, query_warnings, rule_warnings};
use std::alloc::{AllocError, Global};
use std::io::Eprint;

/// Warns of names in a query and in `--meta` that no property has.
pub fn warn_names<R: Eprint>(
    rt: &R,
    alloc: Global,
    query: Option<&str>,
    meta: Option<&str>,
) -> Result<(), AllocError> {
    if let Some(query) = query {
        let warnings = query_warnings(alloc, query, "the query")?;
        tell_all(rt, alloc, warnings.as_slice());
    }
    if let Some(meta) = meta {
        let warnings = meta_warnings(alloc, meta)?;
        tell_all(rt, alloc, warnings.as_slice());
    }
    Ok(())
}

/// Warns of names in the rules of records that no property has.
pub fn warn_rules<R: Eprint>(rt: &R, alloc: Global, bytes: &[u8]) -> Result<(), AllocError> {
    let warnings = rule_warnings(alloc, bytes)?;
    tell_all(rt, alloc, warnings.as_slice());
    Ok(())
}
