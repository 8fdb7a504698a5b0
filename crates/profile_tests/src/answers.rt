//! The status and the line of each answer.
use arrayvec::ArrayString;
use driver_answer::{
    Answer, DeadFault, EmulatorFault, JobCause, JobStop, ProfileCause, ProfileFault, UsageCause,
    UsageFault,
};
use pwg_definitions::{InputCause, LineFault};

const CASES: [(Answer, u8, &str); 16] = [
    (Answer::Done, 0, ""),
    (
        Answer::Usage(UsageFault {
            word: 2,
            cause: UsageCause::UnknownKey,
        }),
        1,
        "usage: word 2: UnknownKey\n",
    ),
    (
        Answer::Profile {
            line: 0,
            cause: ProfileCause::Check(ProfileFault::TopMargin { needs: 4 }),
        },
        2,
        "profile: line 0: TopMargin 4\n",
    ),
    (
        Answer::Profile {
            line: 0,
            cause: ProfileCause::Check(ProfileFault::Curve { ink: 3 }),
        },
        2,
        "profile: line 0: Curve 3\n",
    ),
    (
        Answer::Usage(UsageFault {
            word: 4,
            cause: UsageCause::Together,
        }),
        1,
        "usage: word 4: Together\n",
    ),
    (
        Answer::Profile {
            line: 0,
            cause: ProfileCause::NoShingle { half: 0, gcd: 1 },
        },
        2,
        "profile: line 0: NoShingle 0 1\n",
    ),
    (
        Answer::Profile {
            line: 0,
            cause: ProfileCause::Dead(DeadFault::AllDead { nozzles: 3 }),
        },
        2,
        "profile: line 0: AllDead 3\n",
    ),
    (
        Answer::Profile {
            line: 0,
            cause: ProfileCause::Dead(DeadFault::NoSuchNozzle { nozzle: 3 }),
        },
        2,
        "profile: line 0: NoSuchNozzle 3\n",
    ),
    (
        Answer::Input {
            page: 2,
            line: 7,
            cause: InputCause::Line(LineFault::RunPastLine),
        },
        3,
        "input: page 2 line 7: RunPastLine\n",
    ),
    (Answer::Read, 4, "read failed\n"),
    (Answer::Write { page: 3 }, 5, "write failed: page 3\n"),
    (
        Answer::OverCap {
            page: 1,
            total: 0,
            dots: 16,
            cap: 15,
        },
        6,
        "over cap: page 1: total 0, page 16, cap 15\n",
    ),
    (Answer::Memory, 7, "out of memory\n"),
    (
        Answer::Job {
            offset: 65,
            cause: JobStop::Machine(EmulatorFault::Overprint),
        },
        8,
        "job: offset 65: Overprint\n",
    ),
    (
        Answer::Job {
            offset: 8,
            cause: JobStop::Reader(JobCause::RunCode),
        },
        8,
        "job: offset 8: RunCode\n",
    ),
    (
        Answer::Job {
            offset: 10,
            cause: JobStop::TooLong,
        },
        8,
        "job: offset 10: TooLong\n",
    ),
];

#[test]
fn each_answer_has_its_status_and_its_line(rt: HostRuntime) {
    for (answer, status, line) in &CASES {
        let mut text = ArrayString::new();
        answer.text(&mut text);
        assert!(rt;
            answer.status() == *status && text.as_str() == *line,
            "{line}"
        );
    }
}
