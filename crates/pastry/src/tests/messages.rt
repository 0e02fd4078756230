//! What is said of inputs that are no scenario, and of words that are refused.

use crate::cause::Cause;
use crate::help::ask_for_help;
use crate::message::{Before, Explained, ExplainedScript, Grouped};
use group_reader::read_groups;
use scenario_reader::read_scenario;
use std::alloc::{AllocError, Global};
use std::process::Abort;
use std::rc::RcStr;
use std::test::Fail;

/// What is said of an input; nothing if it is a scenario.
fn message(alloc: Global, text: &[u8]) -> Result<String, AllocError> {
    match read_scenario(alloc, text) {
        Ok(_) => Ok(String::new(alloc)),
        Err(fault) => {
            let before = Before::new(alloc, &fault, text);
            let fault = &fault;
            format!(in alloc;
                "{}",
                Explained {
                    fault,
                    text,
                    before
                }
            )
        }
    }
}

/// What is to be said of an input, and the line that is to stand below it, with the caret at a place.
struct Case {
    input: &'static str,
    said: &'static str,
    line: &'static str,
    place: usize,
}

const SPACES: &str = "                                                ";

/// Tries inputs.
fn check(rt: &impl Abort, alloc: Global, cases: &[Case]) -> Result<(), AllocError> {
    for case in cases {
        let Case { line, said, .. } = case;
        let spaces = SPACES.get(..case.place).unwrap_or("");
        let due = format!(in alloc; "{said}\n    {line}\n    {spaces}^")?;
        let told = message(alloc, case.input.as_bytes())?;
        assert_eq!(rt; told.as_str(), due.as_str());
    }
    Ok(())
}

#[test]
fn numbers_are_told_apart(rt: HostRuntime) -> Result<(), AllocError> {
    check(
        &rt,
        rt.alloc(),
        &[
            Case {
                input: "settle 07",
                said: "line 1, column 8: expected a number of deliveries, found \"07\", which begins with 0",
                line: "settle 07",
                place: 7,
            },
            Case {
                input: "settle 1x",
                said: "line 1, column 9: expected a number of deliveries, found \"1x\", which is no number",
                line: "settle 1x",
                place: 8,
            },
            Case {
                input: "shuffle 18446744073709551616 5",
                said: "line 1, column 9: expected a seed of at most 18,446,744,073,709,551,615, \
                    found \"18446744073709551616\", which is too large",
                line: "shuffle 18446744073709551616 5",
                place: 8,
            },
            Case {
                input: "node A -\nfirst A\ndup 5",
                said: "line 3, column 5: expected a number of times from 1 to 4, found \"5\", which is too large",
                line: "dup 5",
                place: 4,
            },
            Case {
                input: "node A -\nfirst A\ndup 2\nsettle 300000\ndeliver 0\nsettle 200000",
                said: "line 6, column 8: expected at most 1,000,000 deliveries over all lines, \
                    found \"200000\", which asks for 400,000 after the 600,001 of earlier lines",
                line: "settle 200000",
                place: 7,
            },
        ],
    )
}

#[test]
fn lengths_and_digits_are_told(rt: HostRuntime) -> Result<(), AllocError> {
    check(
        &rt,
        rt.alloc(),
        &[
            Case {
                input: "node A 100000000000000000000000000000000",
                said: "line 1, column 8: expected an identifier of 32 hexadecimal digits, - or @FILE, \
                    found \"100000000000000000000000000000000\", which has 33 digits",
                line: "node A 100000000000000000000000000000000",
                place: 7,
            },
            Case {
                input: "file f 6g - 0000000000000000 -",
                said: "line 1, column 9: expected a file's NAME in pairs of hexadecimal digits, or -, \
                    found \"6g\", in which \"g\" is no hexadecimal digit",
                line: "file f 6g - 0000000000000000 -",
                place: 8,
            },
            Case {
                input: "file f 666 - 0000000000000000 -",
                said: "line 1, column 8: expected a file's NAME in pairs of hexadecimal digits, or -, \
                    found \"666\", which has 3 digits, an odd number",
                line: "file f 666 - 0000000000000000 -",
                place: 7,
            },
            Case {
                input: "node A\"b -",
                said: "line 1, column 7: expected a name of 1 to 32 letters, digits or underscores, \
                    found \"A\\\"b\", in which \"\\\"\" is no letter, digit or underscore",
                line: "node A\"b -",
                place: 6,
            },
        ],
    )
}

#[test]
fn earlier_lines_are_told(rt: HostRuntime) -> Result<(), AllocError> {
    check(
        &rt,
        rt.alloc(),
        &[
            Case {
                input: "node A -\n\nnode A @f\n",
                said: "line 3, column 8: expected a file behind @ that an earlier line declares, found \"@f\"",
                line: "node A @f",
                place: 7,
            },
            Case {
                input: "# none\nnode A -\nnode B -\nnode A -\n",
                said: "line 4, column 6: expected a name that no earlier node has, found \"A\", which line 2 declares",
                line: "node A -",
                place: 5,
            },
            Case {
                input: "node A aaaaaaaaaaaaaaaaaaaaaaaaaaaaaaaa\nfirst A\nnode B AAAAAAAAAAAAAAAAAAAAAAAAAAAAAAAA\n",
                said: "line 3, column 8: expected an identifier that no earlier node has, \
                    found \"AAAAAAAAAAAAAAAAAAAAAAAAAAAAAAAA\", which the node of line 1 has",
                line: "node B AAAAAAAAAAAAAAAAAAAAAAAAAAAAAAAA",
                place: 7,
            },
            Case {
                input: "file f 66 - 0000000000000000 -\nnode A @f\nnode B @f\n",
                said: "line 3, column 8: expected an identifier that no earlier node has, found \"@f\", which the node of line 2 has",
                line: "node B @f",
                place: 7,
            },
            Case {
                input: "node A -\nfirst A\nfirst A\n",
                said: "line 3, column 1: expected one line \"first NAME\", found a second, after that of line 2",
                line: "first A",
                place: 0,
            },
        ],
    )
}

#[test]
fn words_too_few_or_too_many_are_told(rt: HostRuntime) -> Result<(), AllocError> {
    check(
        &rt,
        rt.alloc(),
        &[
            Case {
                input: "join A  \n",
                said: "line 1, column 8: expected VIA, as in \"join NAME VIA\", found the end of the line",
                line: "join A  ",
                place: 7,
            },
            Case {
                input: "join A B C\n",
                said: "line 1, column 10: expected the end of the line, as in \"join NAME VIA\", found \"C\"",
                line: "join A B C",
                place: 9,
            },
            Case {
                input: "settle 20 # all\n",
                said: "line 1, column 11: expected the end of the line, as in \"settle N\", \
                    found a comment, which is to stand on a line of its own",
                line: "settle 20 # all",
                place: 10,
            },
            Case {
                input: "settle # all\n",
                said: "line 1, column 8: expected N, as in \"settle N\", found a comment, which is to stand on a line of its own",
                line: "settle # all",
                place: 7,
            },
        ],
    )
}

#[test]
fn inputs_without_their_parts_are_told(rt: HostRuntime) -> Result<(), AllocError> {
    let cases = [
        ("", "expected a scenario, found an empty input"),
        (
            "\n# none\n",
            "expected a scenario, found nothing but comments and empty lines",
        ),
        (
            "node A -\n",
            "expected a line \"first NAME\" and then actions, found neither in the input",
        ),
    ];
    for (input, due) in cases {
        let told = message(rt.alloc(), input.as_bytes())?;
        assert_eq!(rt; told.as_str(), due);
    }
    Ok(())
}

#[test]
fn what_stands_too_early_is_told(rt: HostRuntime) -> Result<(), AllocError> {
    check(
        &rt,
        rt.alloc(),
        &[
            Case {
                input: "node A -\nlookup A @f\n",
                said: "line 2, column 10: expected a file behind @ that an earlier line declares, found \"@f\"",
                line: "lookup A @f",
                place: 9,
            },
            Case {
                input: "node A -\n giveup A\n",
                said: "line 2, column 2: expected a line \"first NAME\" before the first action, found \"giveup\"",
                line: " giveup A",
                place: 1,
            },
        ],
    )
}

#[test]
fn bytes_that_are_no_text_have_names(rt: HostRuntime) -> Result<(), AllocError> {
    check(
        &rt,
        rt.alloc(),
        &[
            Case {
                input: "node A -\r\n",
                said: "line 1, column 9: expected a line that ends with a line feed alone, found a carriage return before it (CRLF)",
                line: "node A -?",
                place: 8,
            },
            Case {
                input: "node A\t-\n",
                said: "line 1, column 7: expected words with spaces between them, found a tab",
                line: "node A?-",
                place: 6,
            },
            Case {
                input: "\u{feff}node A -\n",
                said: "line 1, column 1: expected ASCII text from the first byte on, found a byte order mark (BOM)",
                line: "???node A -",
                place: 0,
            },
        ],
    )
}

/// Of a long line what stands about the fault is shown, and the caret points at it.
#[test]
fn a_long_line_is_cut(rt: HostRuntime) -> Result<(), Fail> {
    let digits = "0123456789";
    let forty = format!(in rt.alloc(); "{digits}{digits}{digits}{digits}")?;
    let text = format!(in rt.alloc(); "noise A {forty}{forty}x{forty}")?;
    let due = format!(in rt.alloc();
        "line 1, column 89: expected noise in pairs of hexadecimal digits, or -, \
        found \"{forty}\".., in which \"x\" is no hexadecimal digit\n    ..23456789{forty}x{digits}{digits}012..\n      {SPACES}^"
    )?;
    let said = message(rt.alloc(), text.as_bytes())?;
    assert_eq!(rt; said.as_str(), due.as_str());
    Ok(())
}

#[test]
fn refused_words_are_told_in_one_line(rt: HostRuntime) -> Result<(), Fail> {
    let cases = [
        (
            "error: invalid value '257' for '--nodes <nodes>': 257 is not in 2..=256\n",
            "invalid value '257' for '--nodes <nodes>': 257 is not in 2 to 256",
        ),
        (
            "error: invalid value '1..=3' for '--nodes <nodes>': invalid digit found in string\n",
            "invalid value '1..=3' for '--nodes <nodes>': invalid digit found in string",
        ),
        (
            "error: invalid value '\u{1b}[1m' for '<mode>'\n  [possible values: play, big]\n",
            "invalid value '\\u{1b}[1m' for '<mode>' [possible values: play, big]",
        ),
        (
            "error: unexpected argument '--sed' found\n\n  tip: a similar argument exists: '--seed'\n\nUsage: pastry [OPTIONS] <mode>\n",
            "unexpected argument '--sed' found; tip: a similar argument exists: '--seed'",
        ),
    ];
    for (text, due) in cases {
        let said = format!(in rt.alloc(); "{}", Cause(text))?;
        assert_eq!(rt; said.as_str(), due);
    }
    Ok(())
}

#[test]
fn help_is_asked_for(rt: HostRuntime) -> Result<(), Fail> {
    let mut words = Vec::new(rt.alloc());
    assert!(rt; ask_for_help(&words));
    words.push(RcStr::from_str(rt.alloc(), "help")?)?;
    assert!(rt; ask_for_help(&words));
    words.push(RcStr::from_str(rt.alloc(), "big")?)?;
    assert!(rt; !ask_for_help(&words));
    words.push(RcStr::from_str(rt.alloc(), "-h")?)?;
    assert!(rt; ask_for_help(&words));
    Ok(())
}

#[test]
fn numbers_are_grouped(rt: HostRuntime) -> Result<(), Fail> {
    let cases = [
        (0, "0"),
        (999, "999"),
        (1_000, "1,000"),
        (1_000_023, "1,000,023"),
        (u64::MAX, "18,446,744,073,709,551,615"),
    ];
    for (number, due) in cases {
        let said = format!(in rt.alloc(); "{}", Grouped(number))?;
        assert_eq!(rt; said.as_str(), due);
    }
    Ok(())
}

/// What is said of a script of groups; nothing if it is one.
fn script_message(alloc: Global, text: &[u8]) -> Result<String, AllocError> {
    match read_groups(alloc, text) {
        Ok(_) => Ok(String::new(alloc)),
        Err(fault) => format!(in alloc; "{}", ExplainedScript::new(alloc, &fault, text)),
    }
}

/// What is said of one more line behind a scenario of three lines and the line `groups`, in front of that line and its caret.
#[test]
fn lines_of_groups_are_told(rt: HostRuntime) -> Result<(), AllocError> {
    let cases = [
        (
            "join A g",
            "line 5, column 1: expected subscribe, leave, publish, settle or deliver, found \"join\"",
            0,
        ),
        (
            "leave A",
            "line 5, column 1: expected as many words as \"leave NAME GROUP\", found \"leave A\"",
            0,
        ),
        (
            "subscribe C g",
            "line 5, column 11: expected a node that the scenario declares, found \"C\"",
            10,
        ),
        (
            "publish A g 123",
            "line 5, column 13: expected bytes in pairs of hexadecimal digits, or -, found \"123\"",
            12,
        ),
        (
            "settle 1000001",
            "line 5, column 8: expected at most 1,000,000 deliveries over all lines behind the line \"groups\", found \"1000001\"",
            7,
        ),
    ];
    for (line, said, place) in cases {
        let text = format!(in rt.alloc(); "node A -\nnode B -\nfirst A\ngroups\n{line}")?;
        let spaces = SPACES.get(..place).unwrap_or("");
        let due = format!(in rt.alloc(); "{said}\n    {line}\n    {spaces}^")?;
        let told = script_message(rt.alloc(), text.as_bytes())?;
        assert_eq!(rt; told.as_str(), due.as_str());
    }
    Ok(())
}

/// A fault of the scenario is told as such, and so is a script that has nothing but a scenario.
#[test]
fn scripts_are_told_by_their_parts(rt: HostRuntime) -> Result<(), AllocError> {
    let told = script_message(rt.alloc(), b"node A -\nfirst A\nfirst A\ngroups\n")?;
    let due =
        "line 3, column 1: expected one line \"first NAME\", found a second, after that of line 2\n    first A\n    ^";
    assert_eq!(rt; told.as_str(), due);
    let told = script_message(rt.alloc(), b"node A -\nfirst A\n")?;
    let due = "line 3: expected a line \"groups\" behind the scenario, found the end of the input";
    assert_eq!(rt; told.as_str(), due);
    Ok(())
}
