//! The help text of the program.

use napt_program::Manual;

const ABOUT: &str =
    "Explains what napt does with each packet of its captures, or why it refuses its input.";

/// The help of the program under a name.
macro_rules! manual {
    ($name:literal) => {
        Manual {
            name: $name,
            about: ABOUT,
            notes: concat!(
                "The default command is show. It accepts the arguments of napt unchanged, but writes none of napt's outputs.
A FILE that is read, except that of --resume, may be - for standard input. For a file named -, write ./-.

Examples:
  ", $name, " --config napt.toml --inside inside.pcap --outside outside.pcap --dropped
  ", $name, " who 203.0.113.1:5000 --at 2.5 --config napt.toml --inside inside.pcap --outside outside.pcap
  ", $name, " who --requests requests.txt --from-log log.csv --config napt.toml
  ", $name, " log --config napt.toml --inside inside.pcap --replies replies.pcap --as-napt --report report.txt

Each line of show has a packet's number, time in seconds, side, the packet, what happened, and the packet as it leaves:
  1 1.000000 inside  udp 10.0.0.2:5000 > 198.51.100.7:3000 | made a binding | udp 203.0.113.1:5000 > 198.51.100.7:3000
For ICMP queries the number of an endpoint is the identifier, also in --host.

The exit statuses are those of napt, and the reason for each refusal is printed on standard error. In addition, compare
exits with 1 if a packet differs, who exits with 1 if nobody had an endpoint and with 4 if a file is not a log, and both who
and log exit with 7 if the captured gateway used other numbers than napt."
            ),
        }
    };
}

/// The help under the program's own name.
pub const OWN: Manual = manual!("explain");

/// The help under the name with which the program is installed.
pub const INSTALLED: Manual = manual!("napt-explain");
