//! The objects in memory that never fail, of which no program has rows.
use std::test::Fail;
use zi_outside::{Got, Launch, Sink, Spawner, SureSink, SureSpawner, SureWeb, Vars, Web};
use zi_text::List;

#[test]
fn a_sure_sink_holds_what_was_put(rt: HostRuntime) -> Result<(), Fail> {
    let mut sink = SureSink::new(rt.alloc());
    let is_put = sink.put(b"one").is_ok();
    assert!(rt; is_put && sink.bytes().as_slice() == b"one".as_slice());
    Ok(())
}

#[test]
fn a_sure_web_holds_what_was_put(rt: HostRuntime) -> Result<(), Fail> {
    let mut web = SureWeb::new(rt.alloc());
    let mut into = Vec::new(rt.alloc());
    web.put("https://a/b", b"four")?;
    let got = web.get("https://a/b", 4, &mut into);
    assert!(rt; got == Ok(Got::Held) && into.as_slice() == b"four".as_slice());
    Ok(())
}

#[test]
fn a_sure_spawner_answers_in_order(rt: HostRuntime) -> Result<(), Fail> {
    let mut spawner = SureSpawner::new(rt.alloc());
    let launch = Launch {
        words: List::new(rt.alloc()),
        vars: Vars::new(rt.alloc()),
        dirs: List::new(rt.alloc()),
        shims: List::new(rt.alloc()),
    };
    spawner.answer(&[7])?;
    let first = spawner.launch(&launch);
    let second = spawner.launch(&launch);
    assert!(rt; first == Ok(7) && second == Ok(0));
    Ok(())
}
