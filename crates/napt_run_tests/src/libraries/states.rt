//! A state with all kinds of lines is written and read. Damaged texts are refused with a reason.

use napt_state::{read_state, write_state};
use std::alloc::Global;
use std::io;
use std::io::Write;
use std::test::Fail;

const TEXT: &str = "clock 1800000000000000000\n\
    redirect tcp 10.0.0.9 80 203.0.113.1 8080 0\n\
    binding tcp 10.0.0.2 5001 203.0.113.1 1025 1799999999000000001\n\
    flow 198.51.100.7 443 1799999999000000001 1 1 0 0 0\n\
    binding icmp 10.0.0.2 7 203.0.113.1 7 18446744073709551615\n\
    end 3 1\n";

const WITH_LOG: &str = "clock 1800000000000000000\n\
    log 17 3 18446744073709551615 14695981039346656037\n\
    redirect tcp 10.0.0.9 80 203.0.113.1 8080 0 1 0 3 2305843009213693952 7 8\n\
    held icmp 10.0.0.3 7 203.0.113.1 7 1800000000000000000\n\
    binding udp 10.0.0.2 5001 203.0.113.1 1025 1799999999000000001 17 5 1 2 9 10\n\
    flow 198.51.100.7 443 1799999999000000001 0 0 0 0 0\n\
    end 3 1\n";

/// A state as an earlier version wrote it, and as it is written again.
const EARLIER: &str = "clock 1800000000000000000\n\
    redirect tcp 10.0.0.9 80 203.0.113.1 8080 0\n\
    binding udp 10.0.0.2 5001 203.0.113.1 1025 1799999999000000001\n\
    log 17 2305843009213693953\n\
    entry 1 redirect tcp 10.0.0.9 80 203.0.113.1 8080 0 never 3 2305843009213693952 7 8\n\
    entry 17 binding udp 10.0.0.2 5001 203.0.113.1 1025 5 340282366920938463463374607431768211455 1 2 9 10\n\
    end 2 0 2\n";

const AGAIN: &str = "clock 1800000000000000000\n\
    log 17 0 0 0\n\
    redirect tcp 10.0.0.9 80 203.0.113.1 8080 0 1 0 3 2305843009213693952 7 8\n\
    binding udp 10.0.0.2 5001 203.0.113.1 1025 1799999999000000001 17 5 1 2 9 10\n\
    end 2 0\n";

/// Returns the text that is written for the state in a text, or why the text is refused.
fn written(alloc: Global, text: &[u8]) -> io::Result<Vec<u8>> {
    let mut written = Vec::new(alloc);
    match read_state(alloc, text) {
        Ok(saved) => write_state(alloc, &mut written, &saved)?,
        Err(fault) => write!(&mut written, "{fault}")?,
    }
    Ok(written)
}

#[test]
fn a_state_is_read_and_written_again(rt: HostRuntime) -> Result<(), Fail> {
    for text in [
        TEXT,
        WITH_LOG,
        "clock 0\nend 0 0\n",
        "clock 0\nlog 0 0 0 0\nend 0 0\n",
    ] {
        let text = text.as_bytes();
        assert_eq!(rt; written(rt.alloc(), text)?.as_slice(), text);
    }
    let again = written(rt.alloc(), EARLIER.as_bytes())?;
    assert_eq!(rt; again.as_slice(), AGAIN.as_bytes());
    Ok(())
}

#[test]
fn what_is_no_state_is_refused(rt: HostRuntime) -> Result<(), Fail> {
    macro_rules! rows {
        ($($text:literal $fault:literal;)*) => { [$(($text, $fault)),*] };
    }
    let rows = rows! {
        "" "line 1: the text breaks off";
        "clock 1" "line 1: the text breaks off";
        "clock 1\nend 0 0" "line 2: the text breaks off";
        "clock 1\n" "line 2: the text breaks off";
        "\n" "line 1: first word ''";
        "end 0 0\n" "line 1: first word 'end'";
        "clock 1\nclock 1\n" "line 2: first word 'clock'";
        "clock 1\nstart\x1b 1\n" "line 2: first word 'start'";
        "clock 1\nend 0 0\r\n" "line 2: number '0'";
        "clock\n" "line 1: too many words, or too few";
        "clock 1 \n" "line 1: too many words, or too few";
        "clock 01\n" "line 1: number '01'";
        "clock +1\n" "line 1: number '+1'";
        "clock 18446744073709551616\n" "line 1: number '18446744073709551616'";
        "clock 1000000000000000000000000000000000000000000000000000\n" "line 1: number '1000000000000000000000000000000000000000'";
        "clock 1\nbinding udp 10.0.0.2 5000 203.0.113.1 65536 1\n" "line 2: number '65536'";
        "clock 1\nbinding udp 10.0.0.2 5000 203.0.113 1 1\n" "line 2: address '203.0.113'";
        "clock 1\nbinding udp 10.0.0.256 5000 203.0.113.1 1 1\n" "line 2: address '10.0.0.256'";
        "clock 1\nredirect sctp 10.0.0.2 5000 203.0.113.1 1 1\n" "line 2: protocol 'sctp'";
        "clock 1\nbinding udp 10.0.0.2 5000 203.0.113.1 1 1\nflow 10.0.0.2 5000 1 0 0 0 0 2\n" "line 3: mark '2'";
        "clock 1\nflow 10.0.0.2 5000 1 0 0 0 0 0\n" "line 2: a flow that belongs to no binding";
        "clock 1\nend 1 0\n" "line 2: counts that do not match the lines";
        "clock 1\nend 0 1\n" "line 2: counts that do not match the lines";
        "clock 1\nend 0 0\nend 0 0\n" "line 3: text after the end";
        "clock 1\nend 0 0 0\n" "line 2: counts that do not match the lines";
        "clock 1\nlog 1 0\nend 0 0\n" "line 3: counts that do not match the lines";
        "clock 1\nlog 0 0 0\n" "line 2: too many words, or too few";
        "clock 1\nbinding udp 10.0.0.2 5 203.0.113.1 5 1\nlog 0 0 0 0\n" "line 3: first word 'log'";
        "clock 1\nlog 0 0 0 0\nlog 0 0 0 0\n" "line 3: first word 'log'";
        "clock 1\nbinding udp 10.0.0.2 5 203.0.113.1 5 1 1 1 0 0 1\n" "line 2: too many words, or too few";
        "clock 1\nbinding udp 10.0.0.2 5 203.0.113.1 5 1 1 1 2305843009213693953 0 1 1\n"
            "line 2: number '2305843009213693953'";
        "clock 1\nbinding udp 10.0.0.2 5 203.0.113.1 5 1 1 1 0 0 1 1\nend 1 0\n"
            "line 3: accounts that cannot be those of one log";
        "clock 1\nlog 1 0 0 0\nbinding udp 10.0.0.2 5 203.0.113.1 5 1 2 1 0 0 1 1\nend 1 0\n"
            "line 4: accounts that cannot be those of one log";
        "clock 1\nlog 1 0 0 0\nbinding udp 10.0.0.2 5 203.0.113.1 5 1 1 2 0 0 1 1\nend 1 0\n"
            "line 4: accounts that cannot be those of one log";
        "clock 1\nlog 2 0 0 0\nbinding udp 10.0.0.2 5 203.0.113.1 5 1 1 1 0 0 1 1\nbinding udp 10.0.0.2 6 203.0.113.1 6 1 1 1 0 0 1 1\nend 2 0\n"
            "line 5: accounts that cannot be those of one log";
        "clock 1\nlog 2 0 0 0\nbinding udp 10.0.0.2 5 203.0.113.1 5 1 1 1 0 0 1 1\nbinding udp 10.0.0.2 6 203.0.113.1 5 1 2 1 0 0 1 1\nend 2 0\n"
            "line 5: accounts that cannot be those of one log";
        "clock 1\nheld udp 10.0.0.2 5 203.0.113.1 5 2\nend 1 0\n" "line 3: accounts that cannot be those of one log";
        "clock 1\nheld udp 10.0.0.2 5 203.0.113.1 5 1\nflow 10.0.0.2 5000 1 0 0 0 0 0\n"
            "line 3: a flow that belongs to no binding";
        "clock 1\nlog 1 0\nentry 2 binding udp 10.0.0.2 5 203.0.113.1 5 1 2 3 4 5 6\nend 0 0 1\n"
            "line 4: accounts that cannot be those of one log";
        "clock 1\nentry 1 binding\n" "line 2: too many words, or too few";
        "clock 1\nlog 0 0\nlog 0 0\n" "line 3: first word 'log'";
        "clock 1\nlog 0 0\nbinding udp 10.0.0.2 5000 203.0.113.1 1 1\n" "line 3: first word 'binding'";
        "clock 1\nlog 0 0\nflow 10.0.0.2 5000 1 0 0 0 0 0\n" "line 3: first word 'flow'";
        "clock 1\nlog 2305843009213693953 0\n" "line 2: number '2305843009213693953'";
        "clock 1\nentry 1 binding udp 10.0.0.2 5 203.0.113.1 5 1 2 3 4 5 6\n" "line 2: first word 'entry'";
        "clock 1\nlog 1 0\nentry 1 flow udp 10.0.0.2 5 203.0.113.1 5 1 2 3 4 5 6\n" "line 3: kind 'flow'";
        "clock 1\nlog 1 0\nentry 1 binding udp 10.0.0.2 5 203.0.113.1 5 1 none 3 4 5 6\n" "line 3: end 'none'";
        "clock 1\nlog 1 0\nentry 1 binding udp 10.0.0.2 5 203.0.113.1 5 1 2 2305843009213693953 4 5 6\n"
            "line 3: number '2305843009213693953'";
    };
    for (text, fault) in rows {
        let found = written(rt.alloc(), text.as_bytes())?;
        assert_eq!(rt; found.as_slice(), fault.as_bytes());
    }
    let fault = written(rt.alloc(), &[99, 108, 255, 10])?;
    assert_eq!(rt; fault.as_slice(), b"line 1: not UTF-8".as_slice());
    Ok(())
}
