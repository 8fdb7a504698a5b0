//! Words that are refused.
use crate::runs::{AT_ONCE, Way, leaves};
use job_fixtures::TINY_JOB;
use std::test::Fail;

#[test]
fn a_refused_word_is_named_before_the_first_read(rt: HostRuntime) -> Result<(), Fail> {
    const UNREAD: Way = Way {
        failing_read: 1,
        ..AT_ONCE
    };
    const ROWS: [(&[&str], &[u8]); 8] = [
        (&["pages"], b"usage: word 1: NotKeyValue\n"),
        (&["pages=1", ""], b"usage: word 2: NotKeyValue\n"),
        (
            &["progress=1", "profile=tiny"],
            b"usage: word 2: UnknownKey\n",
        ),
        (&["Pages=1"], b"usage: word 1: UnknownKey\n"),
        (
            &["stop=a", "pages=1", "stop=b"],
            b"usage: word 3: RepeatedKey\n",
        ),
        (&["pages=2"], b"usage: word 1: BadValue\n"),
        (&["progress=yes"], b"usage: word 1: BadValue\n"),
        (&["pages=1", "stop="], b"usage: word 2: BadValue\n"),
    ];
    for (words, line) in &ROWS {
        leaves(&rt, rt.alloc(), words, &TINY_JOB, UNREAD, (1, b"", line))?;
    }
    Ok(())
}
