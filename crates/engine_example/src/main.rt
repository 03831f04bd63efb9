//! The example of the README: a record reads a tank's level, and another one copies it.
#![tactic(auto)]

use ioc_engine::{
    Answer, CountingClock, Desk, Device, DeviceName, Engine, EngineName, EngineWork, FieldText,
    IocError, Limits, LoadError, Macros, Seed, Value, load, with_engine,
};
use std::alloc::Global;
use std::io;
use std::sync::Wait;

const TEXT: &[u8] = b"record(longin,\"level\"){field(INP,\"@tank\") field(HIGH,10) field(HSV,MINOR)}
record(longin,\"copy\"){}";

#[derive(Drop)]
struct Tank(i32);

impl Device for Tank {
    ghost gives = { λ _ _ _ _ _. Unit {0} };

    fn read(&mut self, _moment: u64) -> Answer {
        Answer::Done(Value::Long(self.0))
    }

    fn write(&mut self, _value: Value, _moment: u64) -> Answer {
        Answer::Fault
    }
}

/// What is done: `copy` reads `level` from then on.
#[derive(Clone, Copy)]
struct Copying;

impl<R: Wait> EngineWork<Tank, CountingClock, R, Result<FieldText, IocError>> for Copying {
    fn work<B: EngineName<Tank> + Send + Sync>(
        self,
        rt: &R,
        engine: &Engine<B, Tank, CountingClock>,
        desk: &mut Desk<B, Tank>,
    ) -> Result<FieldText, IocError> {
        let input = engine.channel(b"copy.INP")?;
        let (changed, _receipt) = engine.set_link(rt, desk, input, b"level PP MS")?;
        changed?;
        engine.process(rt, desk, engine.record(b"copy")?)?;
        let (shown, _receipt) = engine.get(rt, desk, engine.channel(b"copy.SEVR")?)?;
        Ok(shown)
    }
}

fn loaded(alloc: Global) -> Result<Seed<Tank>, LoadError> {
    let devices = vec![in alloc; (DeviceName::cut(b"tank"), Tank(12))]?;
    let database = load(alloc, TEXT, &Macros::new(alloc))?;
    Ok(Seed::new(alloc, database, devices)?)
}

fn run<R: Wait>(rt: &R, alloc: Global, seed: Seed<Tank>) -> Result<bool, IocError> {
    let clock = CountingClock::new();
    let shown = with_engine(rt, alloc, seed, clock, Limits::default(), Copying)?;
    Ok(shown? == FieldText::cut(b"MINOR"))
}

fn main(rt: HostRuntime) -> io::Result<()> {
    let seed = match loaded(rt.alloc()) {
        Ok(seed) => seed,
        Err(error) => return println!(rt; "{error}"),
    };
    match run(&rt, rt.alloc(), seed) {
        Ok(true) => println!(rt; "copy has the alarm of level"),
        Ok(false) => println!(rt; "copy has no alarm"),
        Err(error) => println!(rt; "{error}"),
    }
}
