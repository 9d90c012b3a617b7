// The rows that are texts alone.

use crate::rows::first_failing;
use elvm_rows::{c_acts, c_results, c_rules, c_texts, c_units, prefixes, programs, statuses};
use std::alloc::AllocError;

#[test]
fn of_undefined_acts(rt: HostRuntime) -> Result<(), AllocError> {
    assert_eq!(rt; first_failing(rt.alloc(), c_acts::ROWS)?, None);
    Ok(())
}

#[test]
fn of_results(rt: HostRuntime) -> Result<(), AllocError> {
    assert_eq!(rt; first_failing(rt.alloc(), c_results::ROWS)?, None);
    Ok(())
}

#[test]
fn of_rules(rt: HostRuntime) -> Result<(), AllocError> {
    assert_eq!(rt; first_failing(rt.alloc(), c_rules::ROWS)?, None);
    Ok(())
}

#[test]
fn of_grammar(rt: HostRuntime) -> Result<(), AllocError> {
    assert_eq!(rt; first_failing(rt.alloc(), c_units::ROWS)?, None);
    Ok(())
}

#[test]
fn of_compiled_texts(rt: HostRuntime) -> Result<(), AllocError> {
    assert_eq!(rt; first_failing(rt.alloc(), c_texts::ROWS)?, None);
    Ok(())
}

#[test]
fn of_machines(rt: HostRuntime) -> Result<(), AllocError> {
    for rows in [prefixes::ROWS, programs::ROWS, statuses::ROWS] {
        assert_eq!(rt; first_failing(rt.alloc(), rows)?, None);
    }
    Ok(())
}
