use formats::bitmap0::BitMap0;
use notation::hex;
use piles::Pile;
use plans::Verdict;
use plans::reporting::answer;
use std::alloc::Global;
use std::process::Abort;
use std::test::Fail;

// What line 7 of a plan is answered.
fn says(
    rt: &impl Abort,
    heap: Global,
    line: &str,
    verdict: Verdict,
    text: &str,
) -> Result<(), Fail> {
    let answer = answer(heap, &BitMap0 {}, 7, line)?;
    assert_eq!(rt; answer.verdict, verdict);
    assert_eq!(rt; answer.text.as_str(), text);
    Ok(())
}

#[test]
fn two_channels_are_composed(rt: HostRuntime) -> Result<(), Fail> {
    says(
        &rt,
        rt.alloc(),
        "1234:00ab 124\t1 # both ends",
        Verdict::Composed,
        "line 7: cell 1234:00AB, 2 channels: 1 124\n  composed in 16 octets: 08 00 00 00 00 00 00 00 00 00 00 00 00 00 00 01\n  read back: 1 124, the same channels\n",
    )
}

#[test]
fn runs_are_ranges(rt: HostRuntime) -> Result<(), Fail> {
    says(
        &rt,
        rt.alloc(),
        "FFFF:0000 5 3-4 9-10",
        Verdict::Composed,
        "line 7: cell FFFF:0000, 5 channels: 3-5 9 10\n  composed in 16 octets: 00 00 00 00 00 00 00 00 00 00 00 00 00 00 03 1C\n  read back: 3-5 9 10, the same channels\n",
    )
}

#[test]
fn channel_0_is_refused(rt: HostRuntime) -> Result<(), Fail> {
    says(
        &rt,
        rt.alloc(),
        "1234:00AC 0",
        Verdict::Refused,
        "line 7: cell 1234:00AC, 1 channel: 0\n  refused: number 7, layer pile, place 0: the pile has no octets of this length for these channels\n",
    )
}

#[test]
fn no_channel_is_over_1023(rt: HostRuntime) -> Result<(), Fail> {
    let heap = rt.alloc();
    says(
        &rt,
        heap,
        "1234:00AC 1 1024",
        Verdict::Refused,
        "line 7, column 13: found \"1024\", refused: number 1, layer set, place 0: a channel or a shift is over 1023\n",
    )?;
    says(
        &rt,
        heap,
        "1234:00AC 70000-99999999999 x",
        Verdict::Refused,
        "line 7, column 11: found \"70000-99999999999\", refused: number 1, layer set, place 0: a channel or a shift is over 1023\n",
    )
}

#[test]
fn words_are_held_to_their_form(rt: HostRuntime) -> Result<(), Fail> {
    let heap = rt.alloc();
    says(
        &rt,
        heap,
        "1234:00AC 1 12a4",
        Verdict::Misread,
        "line 7, column 15: found \"a4\", expected a digit, a dash or the end of the word\n",
    )?;
    says(
        &rt,
        heap,
        "1234:00AC 9-3 # reversed",
        Verdict::Misread,
        "line 7, column 13: found \"3\", expected a number not below the one before the dash\n",
    )?;
    says(
        &rt,
        heap,
        "1234:00",
        Verdict::Misread,
        "line 7, column 8: found the end of the word, expected a hexadecimal digit\n",
    )
}

#[test]
fn deleted_areas_have_no_cells(rt: HostRuntime) -> Result<(), Fail> {
    let heap = rt.alloc();
    says(
        &rt,
        heap,
        "0000:0001 1",
        Verdict::Misread,
        "line 7, column 1: found \"0000:0001\", expected an area code other than 0000 and FFFE, which mark a deleted area\n",
    )?;
    says(
        &rt,
        heap,
        " fffe:0001",
        Verdict::Misread,
        "line 7, column 2: found \"fffe:0001\", expected an area code other than 0000 and FFFE, which mark a deleted area\n",
    )
}

#[test]
fn blank_lines_are_passed_over(rt: HostRuntime) -> Result<(), Fail> {
    let heap = rt.alloc();
    says(&rt, heap, "", Verdict::Blank, "")?;
    says(&rt, heap, " \t ", Verdict::Blank, "")?;
    says(&rt, heap, "  # 1234:00AC 1", Verdict::Blank, "")
}

// What a text of octets is read as, if it is one.
fn octets(heap: Global, text: &[u8]) -> Result<Vec<u8>, Fail> {
    hex::read(heap, text).map_err(|_| Fail::new("these are no octets"))
}

#[test]
fn octets_are_read_with_and_without_blanks(rt: HostRuntime) -> Result<(), Fail> {
    let heap = rt.alloc();
    let close = octets(heap, b"8E0520")?;
    let apart = octets(heap, b" 8e 05\t20 ")?;
    assert_eq!(rt; close.as_slice(), [0x8E, 0x05, 0x20].as_slice());
    assert_eq!(rt; apart.as_slice(), [0x8E, 0x05, 0x20].as_slice());
    assert!(rt; hex::read(heap, b"8E052").is_err());
    assert!(rt; hex::read(heap, b"8 E0520").is_err());
    Ok(())
}
