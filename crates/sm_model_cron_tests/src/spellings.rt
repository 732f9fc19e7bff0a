//! Which texts are schedules, what they say, and where others stop being one.
use sm_cron::Schedule;
use std::alloc::{AllocError, Global};
use std::test::Fail;

/// Texts, with the seconds or the sets of a schedule, where bit k of a set is the number k, or with the first place at
/// which no schedule goes on. The last two have 257 bytes: how long a schedule may be, its callers say.
static TEXTS: [(&str, &str); 64] = [
    ("rate(1 day)", "Rate(86400)"),
    ("rate(1 days)", "Rate(86400)"),
    ("rate(1000 days)", "Rate(86400000)"),
    ("rate(4 hours)", "Rate(14400)"),
    ("rate(24000 hour)", "Rate(86400000)"),
    ("rate(10 days)", "Rate(864000)"),
    (
        "cron(0 8 1 * ? *)",
        "Cron(Cron { hours: 256, days: 2, last_day: false, months: 8190, weekdays: 254 })",
    ),
    (
        "cron(0 0 L * ? *)",
        "Cron(Cron { hours: 1, days: 0, last_day: true, months: 8190, weekdays: 254 })",
    ),
    (
        "cron(0 */6 ? * TUE *)",
        "Cron(Cron { hours: 266305, days: 4294967294, last_day: false, months: 8190, weekdays: 8 })",
    ),
    (
        "cron(0 22 14 11 ? *)",
        "Cron(Cron { hours: 4194304, days: 16384, last_day: false, months: 2048, weekdays: 254 })",
    ),
    (
        "cron(0 * * * * *)",
        "Cron(Cron { hours: 16777215, days: 4294967294, last_day: false, months: 8190, weekdays: 254 })",
    ),
    (
        "cron(0 */2,1 1-31 JAN-12 SUN-SAT *)",
        "Cron(Cron { hours: 5592407, days: 4294967294, last_day: false, months: 8190, weekdays: 254 })",
    ),
    (
        "cron(0 /7 5/31 /5 MON-5 *)",
        "Cron(Cron { hours: 2113665, days: 32, last_day: false, months: 2114, weekdays: 60 })",
    ),
    (
        "cron(0 23,0,9-9 10,20,30 DEC,FEB,3 7,1 *)",
        "Cron(Cron { hours: 8389121, days: 1074791424, last_day: false, months: 4108, weekdays: 130 })",
    ),
    (
        "cron(0 5/6,22 31 12 SAT *)",
        "Cron(Cron { hours: 12716064, days: 2147483648, last_day: false, months: 4096, weekdays: 128 })",
    ),
    ("", "not in the spelling at byte 0"),
    ("r", "not in the spelling at byte 1"),
    ("Rate(1 day)", "not in the spelling at byte 0"),
    ("rate(10 days", "not in the spelling at byte 12"),
    ("rate(10 days) ", "not in the spelling at byte 13"),
    ("rate(0 days)", "not in the spelling at byte 5"),
    ("rate(010 days)", "not in the spelling at byte 5"),
    ("rate(3 hours)", "not in the spelling at byte 7"),
    ("rate(24001 hours)", "not in the spelling at byte 9"),
    ("rate(1001 days)", "not in the spelling at byte 10"),
    ("rate(5 minutes)", "not in the spelling at byte 7"),
    ("rate( 5 days)", "not in the spelling at byte 5"),
    ("rate(-5 days)", "not in the spelling at byte 5"),
    ("cron(0 24 * * ? *)", "not in the spelling at byte 8"),
    ("cron(0 08 * * ? *)", "not in the spelling at byte 8"),
    ("cron(5 0 1 * ? *)", "not in the spelling at byte 5"),
    ("cron(00 0 1 * ? *)", "not in the spelling at byte 6"),
    ("cron(0  0 1 * ? *)", "not in the spelling at byte 7"),
    ("cron(0 ? 1 * ? *)", "not in the spelling at byte 7"),
    ("cron(0 5-3 1 * ? *)", "not in the spelling at byte 9"),
    ("cron(0 9-1 1 * ? *)", "not in the spelling at byte 10"),
    ("cron(0 1-5/2 1 * ? *)", "not in the spelling at byte 10"),
    ("cron(0 *,1 1 * ? *)", "not in the spelling at byte 8"),
    ("cron(0 1, 1 * ? *)", "not in the spelling at byte 9"),
    ("cron(0 /0 1 * ? *)", "not in the spelling at byte 8"),
    ("cron(0 /32 1 * ? *)", "not in the spelling at byte 9"),
    ("cron(0 0 0 * ? *)", "not in the spelling at byte 9"),
    ("cron(0 0 32 * ? *)", "not in the spelling at byte 10"),
    ("cron(0 0 L-1 * ? *)", "not in the spelling at byte 10"),
    ("cron(0 0 LW * ? *)", "not in the spelling at byte 10"),
    ("cron(0 0 1,L * ? *)", "not in the spelling at byte 11"),
    ("cron(0 0 1 JANU ? *)", "not in the spelling at byte 14"),
    ("cron(0 0 1 JAx ? *)", "not in the spelling at byte 13"),
    ("cron(0 0 1 jan ? *)", "not in the spelling at byte 11"),
    ("cron(0 0 1 /JAN ? *)", "not in the spelling at byte 12"),
    ("cron(0 0 1 13 ? *)", "not in the spelling at byte 12"),
    ("cron(0 0 1 ? * *)", "not in the spelling at byte 11"),
    ("cron(0 0 1 DEC-JAN ? *)", "not in the spelling at byte 15"),
    ("cron(0 0 ? * 0 *)", "not in the spelling at byte 13"),
    ("cron(0 0 ? * 8 *)", "not in the spelling at byte 13"),
    ("cron(0 0 ? * MON#1 *)", "not in the spelling at byte 16"),
    ("cron(0 0 ? * 2L *)", "not in the spelling at byte 14"),
    ("cron(0 0 1 * ? 2024)", "not in the spelling at byte 15"),
    ("cron(0 0 1 * ? * *)", "not in the spelling at byte 16"),
    ("cron(0 0 1 * ? *", "not in the spelling at byte 16"),
    ("cron(0 0 1 * ? *)x", "not in the spelling at byte 17"),
    ("cron(0 0 1 * ?)", "not in the spelling at byte 14"),
    (
        "cron(0 0,0,0,0,0,0,0,0,0,0,0,0,0,0,0,0,0,0,0,0,0,0,0,0,0,0,0,0,0,0,0,0,0,0,0,0,0,0,0,0,0,0,0,0,0,0,0\
         ,0,0,0,0,0,0,0,0,0,0,0,0,0,0,0,0,0,0,0,0,0,0,0,0,0,0,0,0,0,0,0,0,0,0,0,0,0,0,0,0,0,0,0,0,0,0,0,0,0,0\
         ,0,0,0,0,0,0,0,0,0,0,0,0,0,0,0,0,0,0,0,0,0,0,0,0 1 * ? *)",
        "Cron(Cron { hours: 1, days: 2, last_day: false, months: 8190, weekdays: 254 })",
    ),
    (
        "cron(0 0,0,0,0,0,0,0,0,0,0,0,0,0,0,0,0,0,0,0,0,0,0,0,0,0,0,0,0,0,0,0,0,0,0,0,0,0,0,0,0,0,0,0,0,0,0,0\
         ,0,0,0,0,0,0,0,0,0,0,0,0,0,0,0,0,0,0,0,0,0,0,0,0,0,0,0,0,0,0,0,0,0,0,0,0,0,0,0,0,0,0,0,0,0,0,0,0,0,0\
         ,0,0,0,0,0,0,0,0,0,0,0,0,0,0,0,0,0,0,0,0,0,0,0,0 0 * ? *)",
        "not in the spelling at byte 249",
    ),
];

/// What is read of a text.
fn read(alloc: Global, text: &str) -> Result<String, AllocError> {
    match Schedule::read(text.as_bytes()) {
        Ok(schedule) => format!(in alloc; "{schedule:?}"),
        Err(refused) => format!(in alloc; "{refused}"),
    }
}

#[test]
fn texts_are_read_or_refused_at_their_place(rt: HostRuntime) -> Result<(), Fail> {
    for (text, wanted) in &TEXTS {
        let came = read(rt.alloc(), text)?;
        assert!(rt; came.as_str() == *wanted, "{text}: {came}");
    }
    Ok(())
}
