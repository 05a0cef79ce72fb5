//! Lists, texts and bytes: what is put in comes out.
use std::test::Fail;
use zi_text::{Bytes, List, Text};

#[test]
fn a_list_grows(rt: HostRuntime) -> Result<(), Fail> {
    let mut l = List::new(rt.alloc());
    l.push(7u8)?;
    l.push(9)?;
    assert_eq!(rt; l.len(), 2);
    assert_eq!(rt; *l.at(1), 9);
    Ok(())
}

#[test]
fn a_text_is_copied(rt: HostRuntime) -> Result<(), Fail> {
    let mut t = Text::from_str(rt.alloc(), "ab")?;
    t.push('é')?;
    t.push_str("z")?;
    let u = t.copy(rt.alloc())?;
    assert_eq!(rt; u.as_str(), "abéz");
    assert!(rt; u == t);
    assert_eq!(rt; u.len(), 5);
    assert_eq!(rt; u.at(4), b'z');
    assert!(rt; Text::new(rt.alloc()) != t);
    Ok(())
}

#[test]
fn a_copy_keeps_its_bytes(rt: HostRuntime) -> Result<(), Fail> {
    let mut t = Text::from_str(rt.alloc(), "ab")?;
    let u = t.copy(rt.alloc())?;
    t.push('c')?;
    assert_eq!(rt; u.as_str(), "ab");
    assert_eq!(rt; t.as_str(), "abc");
    let mut v = u.copy(rt.alloc())?;
    v.push_str("z")?;
    assert_eq!(rt; u.as_str(), "ab");
    assert_eq!(rt; v.as_str(), "abz");
    Ok(())
}

#[test]
fn bytes_go_in_and_out(rt: HostRuntime) -> Result<(), Fail> {
    let mut b = Bytes::new(rt.alloc());
    b.push(3)?;
    let c = b.copy(rt.alloc())?;
    assert!(rt; b == c);
    assert_eq!(rt; c.at(0), 3);
    assert_eq!(rt; Bytes::from_vec(c.into_vec()).as_slice(), [3].as_slice());
    Ok(())
}
