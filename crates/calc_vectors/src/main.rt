//! Runs expressions on numbers, and prints what they give and what they store. Each line of the
//! input is an expression, VAL before the run and A to L, parted by tabs; numbers are the hexadecimal
//! digits of their bits.
#![tactic(auto)]

use ioc_calc::{CalcFaultKind, compile};
use ioc_double::Double;
use std::alloc::Global;
use std::io;
use std::num::{f64_from_bits_with_nan, f64_to_bits_with_nan};

fn double(text: &str) -> Double {
    let bits = u64::from_str_radix(text, 16).unwrap_or(0);
    Double::new(f64_from_bits_with_nan(bits))
}

fn push_double(alloc: Global, text: &mut String, value: Double) -> Result<(), io::Error> {
    let x = value.number();
    if x.is_nan() {
        text.push_str("nan")?;
        return Ok(());
    }
    let digits = format!(in alloc; "{:016x}", f64_to_bits_with_nan(x))?;
    text.push_str(&digits)?;
    Ok(())
}

fn push_stores(
    alloc: Global,
    text: &mut String,
    before: &[Double],
    after: &[Double],
) -> Result<(), io::Error> {
    let names = "ABCDEFGHIJKL";
    for (name, (old, new)) in names.chars().zip(before.iter().zip(after.iter())) {
        if *old != *new {
            text.push(' ')?;
            text.push(name)?;
            text.push('=')?;
            push_double(alloc, text, *new)?;
        }
    }
    Ok(())
}

fn refusal(alloc: Global, kind: CalcFaultKind) -> Result<String, io::Error> {
    match kind {
        CalcFaultKind::Bad => Ok(String::from_str(alloc, "bad calc")?),
        CalcFaultKind::LeftOut(word) => {
            let mut text = String::from_str(alloc, "left out in calc: ")?;
            text.push_str(word.name())?;
            Ok(text)
        }
    }
}

fn answer(alloc: Global, line: &str) -> Result<String, io::Error> {
    let mut fields = line.split('\t');
    let expression = fields.next().unwrap_or("");
    let value = double(fields.next().unwrap_or(""));
    let mut arguments = [Double::new(0.0); 12];
    for argument in arguments.iter_mut() {
        *argument = double(fields.next().unwrap_or(""));
    }
    let before = arguments;
    let program = match compile(expression.as_bytes()) {
        Ok(program) => program,
        Err(fault) => return refusal(alloc, fault.kind),
    };
    let result = program.run(&mut arguments, value);
    let mut text = String::from_str(alloc, "ok ")?;
    push_double(alloc, &mut text, result)?;
    push_stores(alloc, &mut text, &before, &arguments)?;
    Ok(text)
}

fn main(rt: HostRuntime) -> io::Result<()> {
    let alloc = rt.alloc();
    for line in rt.lines(alloc) {
        let line = line?;
        let text = answer(alloc, &line)?;
        println!(rt; "{text}")?;
    }
    Ok(())
}
