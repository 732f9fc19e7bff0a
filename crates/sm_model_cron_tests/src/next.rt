//! When schedules come next.
//!
//! The table was made by `tools/schedules`, which walks over Python's calendar a day at a time.
use sm_cron::Schedule;
use std::alloc::Global;
use std::test::Fail;

/// Moments, schedules and their next moments: month ends, leap days, centuries, names, steps, and some that never come;
/// and behind them the first forty lines of `tools/schedules --random 40 --seed 7`.
const LINES: &str = "\
    1700000000 cron(0 8 1 * ? *) -> 1701417600\n\
    1700000000 cron(0 0 L * ? *) -> 1701302400\n\
    1700000000 cron(0 */6 ? * TUE *) -> 1700524800\n\
    1699999200 cron(0 22 14 11 ? *) -> 1731621600\n\
    1700000000 cron(0 0 30 2 ? *) -> none\n\
    1700000000 rate(10 days) -> 1700864000\n\
    1700000000 cron(0 0 29 2 ? *) -> 1709164800\n\
    4102444800 cron(0 0 29 2 ? *) -> 4233686400\n\
    1700000000 cron(0 0 29 2 MON *) -> 2340316800\n\
    1700000000 cron(0 23 31 12 SUN-SAT *) -> 1704063600\n\
    0 cron(0 0 1 1 ? *) -> 31536000\n\
    0 cron(0 0 ? * THU *) -> 604800\n\
    0 cron(0 0 ? * 1 *) -> 259200\n\
    1709164799 cron(0 0 L 2 ? *) -> 1709164800\n\
    1709164800 cron(0 0 L 2 ? *) -> 1740700800\n\
    1699999199 cron(0 22 14 11 ? *) -> 1699999200\n\
    1700000000 cron(0 /5 */10 JAN-MAR,OCT MON-5 *) -> 1704067200\n\
    1700000000 cron(0 20/3 ? * * *) -> 1700002800\n\
    199999999999 cron(0 0 29 2 SUN *) -> 200391667200\n\
    200000000000 cron(0 23 L * ? *) -> 200002604400\n\
    200000000000 rate(24000 hours) -> 200086400000\n\
    1700000000 rate(4 hour) -> 1700014400\n\
    1700000000 rate(1 days) -> 1700086400\n\
    1700000000 rate(1000 day) -> 1786400000\n\
    1700000000 cron(0 0 31 FEB,APR,JUN,SEP,NOV ? *) -> none\n\
    951782400 cron(0 12 L 2 TUE *) -> 951825600\n\
    108022074679 cron(0 * 30 * SUN *) -> 108035078400\n\
    32493376207 cron(0 1,12,7 14 * 1 *) -> 32525802000\n\
    27369239043 cron(0 * 22,25 6,DEC-12 TUE-SAT,7 *) -> 27375062400\n\
    10401115241 cron(0 * 20 /3 ? *) -> 10407484800\n\
    157398219905 cron(0 22 31 * 7 *) -> 157406104800\n\
    109083139920 cron(0 14 * 5-11,MAR,NOV TUE *) -> 109083420000\n\
    169089656557 cron(0 19-19,/26,17 16-17 * TUE-SAT *) -> 169091280000\n\
    169065417263 rate(899 hours) -> 169068653663\n\
    105716621340 cron(0 * 4,*/16 MAR * *) -> 105720940800\n\
    6512607170 cron(0 4-4 /28 * 7 *) -> 6513883200\n\
    92353380491 cron(0 /26 L JAN-4 */3,MON *) -> 92374992000\n\
    57285146285 cron(0 0,20,20 26-27,*/26 DEC /29 *) -> 57433276800\n\
    41471595163 cron(0 21/18,17 L DEC/27,APR,9 ? *) -> 41476294800\n\
    37942578612 rate(761 day) -> 38008329012\n\
    128409660922 cron(0 /5,17,16 20 3 6 *) -> 128538230400\n\
    15291355487 cron(0 * 1-30,3,/17 * 7,6,3/27 *) -> 15291356400\n\
    36281857469 cron(0 2-15 L */5 * *) -> 36287661600\n\
    128709624799 cron(0 15,21/23 13,7,3-3 AUG-12,SEP/29 ? *) -> 128710566000\n\
    9757824092 cron(0 * 13 AUG-8,MAR,1-2 ? *) -> 9770457600\n\
    33770361348 cron(0 */20,4,22 * * ? *) -> 33770376000\n\
    84304500442 cron(0 * 9 * * *) -> 84304972800\n\
    140587509750 cron(0 * ? * */23,/24,6 *) -> 140587660800\n\
    17102052694 cron(0 * 3-15 OCT TUE *) -> 17127763200\n\
    94325154920 cron(0 */7 11 11,1,MAR ? *) -> 94329705600\n\
    62833953693 rate(984 hours) -> 62837496093\n\
    166984423037 cron(0 4,19-19 21,23/30,17-26 11 SUN *) -> 166995835200\n\
    103529827933 cron(0 20 ? * 5,FRI-6,MON-7 *) -> 103529908800\n\
    135121131684 cron(0 * 21-22,20,9-31 MAR,MAY/22,8 7,MON *) -> 135133056000\n\
    6326251338 cron(0 * 7/3,19 6 FRI *) -> 6326294400\n\
    136907001294 cron(0 * 10-23,12 * ? *) -> 136907884800\n\
    110978135832 cron(0 23 /3,*/28 * ? *) -> 110978204400\n\
    65064091871 cron(0 6-19 /18,7-8 AUG-OCT,SEP 3-THU *) -> 65090412000\n\
    82629437100 cron(0 5-7 ? JUN/18,APR 2 *) -> 82629954000\n\
    115408414787 cron(0 12 9,12 FEB 4/5,1 *) -> 115438737600\n\
    132303243179 cron(0 /28 8-15,5 12-DEC 7 *) -> 132316502400\n\
    176255114399 cron(0 16-17 ? APR,10,AUG 4 *) -> 176255625600\n\
    195042239446 cron(0 * 3,22 1-6,APR MON *) -> 195058022400\n\
    60962479178 cron(0 * L 4 * *) -> 60978268800\n\
    111333813867 rate(28 hours) -> 111333914667\n\
    14668966595 cron(0 * 24 * 6/10 *) -> 14670720000\n\
";

/// The line with the next moment that is found.
fn found(alloc: Global, line: &str) -> Result<String, Fail> {
    let (moment, behind) = line.split_once(' ').ok_or("a moment")?;
    let (text, _wanted) = behind.split_once(" -> ").ok_or("a schedule")?;
    let moment = moment.parse::<u64>().ok().ok_or("a moment")?;
    match next(text, moment)? {
        Some(next) => Ok(format!(in alloc; "{moment} {text} -> {next}")?),
        None => Ok(format!(in alloc; "{moment} {text} -> none")?),
    }
}

/// When a schedule comes next.
fn next(text: &str, moment: u64) -> Result<Option<u64>, Fail> {
    match Schedule::read(text.as_bytes()) {
        Ok(schedule) if moment <= 200_000_000_000 => Ok(schedule.next(moment)),
        _ => Err("no schedule, or a late moment".into()),
    }
}

#[test]
fn schedules_come_next(rt: HostRuntime) -> Result<(), Fail> {
    for line in LINES.lines() {
        let wanted = line.trim_start();
        let came = found(rt.alloc(), wanted)?;
        assert!(rt; came.as_str() == wanted, "{wanted}: {came}");
    }
    Ok(())
}
