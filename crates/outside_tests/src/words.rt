//! The words of a command line.
use crate::checks::same_bytes;
use weave_base::Words;

#[test]
fn words_are_read_back(rt: HostRuntime) {
    let mut words = Words::make(rt.alloc());
    assert!(rt; words.is_empty());
    let pushed = [words.push("print"), words.push("")];
    assert!(rt; pushed == [Ok(()), Ok(())] && words.len() == 2);
    same_bytes(&rt, "the first", words.get(0).as_bytes(), b"print");
    same_bytes(&rt, "the second", words.get(1).as_bytes(), b"");
}
