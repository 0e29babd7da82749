//! The worked texts.

ghost use Rattle.std.specs.Prelude.{◌≡◌, ◌-◌, ◌<◌, ◌^◌, length, IfOk};

use crate::*;
use std::alloc::{AllocError, Global};
use std::test::Fail;
use word_core::{Letter, Names, Target};

fn names(alloc: Global) -> Result<Names, AllocError>
    ensures { IfOk result (λ n. (length n.inputs.items ≡ 1) × (length n.outputs.items ≡ 1)) }
{
    let mut inputs = Vec::new(alloc);
    inputs.push(String::from_str(alloc, "r")?)?;
    let mut outputs = Vec::new(alloc);
    outputs.push(String::from_str(alloc, "g")?)?;
    Ok(Names {
        inputs,
        outputs,
        target: Target::Mealy,
    })
}

const COPY: &[u8] =
    b"machine system second\ninputs r\noutputs g\nstates 1\n0 0 -> 0 0\n0 1 -> 1 0\n";

fn fault(rt: &HostRuntime, text: &[u8]) -> Result<Option<MachineError>, AllocError>
    requires { length text.now < 2 ^ 32 - 1 }
{
    let names = names(rt.alloc())?;
    Ok(read_machine(rt.alloc(), text, &names).err())
}

#[test]
fn a_machine_is_read_and_written_again(rt: HostRuntime) -> Result<(), Fail> {
    let names = names(rt.alloc())?;
    let machine = read_machine(rt.alloc(), COPY, &names)?;
    assert_eq!(rt; machine.states().len(), 1);
    let text = print_machine(rt.alloc(), &machine, &names)?;
    assert_eq!(rt; text.as_slice(), COPY);
    Ok(())
}

#[test]
fn a_verdict_and_a_bound_are_passed_over(rt: HostRuntime) -> Result<(), Fail> {
    let text =
        b"UNREALIZABLE\nbound 18446744073709551615\nmachine environment first\ninputs r\noutputs g\nstates 1\n0 - -> 1 0\n";
    assert_eq!(rt; fault(&rt, text)?, None);
    Ok(())
}

#[test]
fn faults_of_lines_name_the_first(rt: HostRuntime) -> Result<(), Fail> {
    assert_eq!(rt; fault(&rt, b"")?, Some(MachineError::Line(1)));
    assert_eq!(rt;
        fault(&rt, b"machine system first\n")?,
        Some(MachineError::Line(1))
    );
    assert_eq!(rt;
        fault(&rt, b"machine system second\n")?,
        Some(MachineError::Line(2))
    );
    let zero = b"machine system second\ninputs r\noutputs g\nstates 01\n";
    assert_eq!(rt; fault(&rt, zero)?, Some(MachineError::Line(4)));
    let open = b"machine system second\ninputs r\noutputs g\nstates 1\n0 - -> 0 0";
    assert_eq!(rt; fault(&rt, open)?, Some(MachineError::Line(5)));
    let next = b"machine system second\ninputs r\noutputs g\nstates 1\n0 - -> 0 1\n";
    assert_eq!(rt; fault(&rt, next)?, Some(MachineError::Line(5)));
    Ok(())
}

#[test]
fn gaps_and_choices_come_after_the_lines(rt: HostRuntime) -> Result<(), Fail> {
    let gap = b"machine system second\ninputs r\noutputs g\nstates 1\n0 0 -> 1 0\n";
    assert_eq!(rt; fault(&rt, gap)?, Some(MachineError::Gap(0)));
    let many = b"machine system second\ninputs r\noutputs g\nstates 18446744073709551615\n";
    assert_eq!(rt; fault(&rt, many)?, Some(MachineError::Gap(0)));
    let skipped = b"machine system second\ninputs r\noutputs g\nstates 3\n0 - -> 1 0\n2 - -> 1 0\n";
    assert_eq!(rt; fault(&rt, skipped)?, Some(MachineError::Gap(1)));
    let first =
        b"machine environment first\ninputs r\noutputs g\nstates 1\n0 0 -> 0 0\n0 1 -> 1 0\n";
    assert_eq!(rt; fault(&rt, first)?, Some(MachineError::NotFirst(0)));
    Ok(())
}

#[test]
fn a_lasso_is_read_and_written_again(rt: HostRuntime) -> Result<(), Fail> {
    let text = b"stem\ncycle\n10\n";
    let lasso = read_lasso(rt.alloc(), text, 2)?;
    assert_eq!(rt; lasso.stem().len(), 0);
    assert_eq!(rt; lasso.cycle(), [Letter(1)].as_slice());
    let again = print_lasso(rt.alloc(), &lasso, 2)?;
    assert_eq!(rt; again.as_slice(), text.as_slice());
    let short = read_lasso(rt.alloc(), b"stem\ncycle\n", 2);
    assert_eq!(rt; short.err(), Some(LassoError::Line(3)));
    Ok(())
}
