//! The texts of faults.

use ring_core::{StageFault, StoreFault};
use std::alloc::{AllocError, Global};
use std::fmt::{Display, Write};
use std::test::Fail;
use trace_session::RunFault;

/// Appends the texts of faults.
fn push_texts<F: Display>(texts: &mut String, faults: &[F]) -> Result<(), AllocError> {
    for fault in faults {
        write!(texts, "{fault}|")?;
    }
    Ok(())
}

/// The texts of all variants.
fn texts(alloc: Global) -> Result<String, AllocError> {
    let mut texts = String::new(alloc);
    push_texts(&mut texts, &[StageFault::BadSize, StageFault::NoMemory])?;
    push_texts(&mut texts, &[StoreFault::Closed, StoreFault::NoCall])?;
    push_texts(
        &mut texts,
        &[RunFault::BadSize, RunFault::NoMemory, RunFault::SinkFault],
    )?;
    Ok(texts)
}

/// The text of each variant names it.
#[test]
fn faults_name_themselves(rt: HostRuntime) -> Result<(), Fail> {
    let texts = texts(rt.alloc())?;
    let names = "bad size|no memory|closed|no call|bad size|no memory|sink fault";
    for (text, name) in texts.split('|').zip(names.split('|')) {
        assert!(rt; text.contains(name), "{text}");
    }
    Ok(())
}
