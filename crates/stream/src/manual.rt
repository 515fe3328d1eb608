//! The help text of the program.

use napt_program::Manual;

const ABOUT: &str = "Network address and port translation for IPv4 while the packets come: reads \
captures of the packets that inside hosts and the outside send, from files or pipes, and writes the \
captures of what leaves for the other side at once, in bounded memory.";

/// The help of the program under this name.
macro_rules! manual {
    ($name:literal) => {
        Manual {
            name: $name,
            about: ABOUT,
            notes: concat!(
                "FILE may be - for standard input or output. For a file named -, write ./-
(the FILE of a state may not be -).

Examples:
  ", $name, " < inside.pcap > to-outside.pcap
  zstdcat inside.pcap.zst | ", $name, " --config napt.toml --report report.txt > to-outside.pcap

After success each output contains the bytes that napt writes. The differences are:
  Each packet is answered, written and flushed before more input is read.
  With an outside capture, a packet waits for the next record of the other side,
  whose time shows that no earlier packet can come. An empty record is enough.
  If a capture has a fault, all packets before it are translated and written.
  Outputs begin with their header in any case; the report is written only at
  the end.
  The log is the one that explain log writes. The rows of a packet are in the
  log before the packet is written. A log that has text is refused, unless
  --resume names the state that was saved with it: then the log is continued.
  With --log-each the log is continued in the next file after FILE.1, FILE.2, ..;
  if there are such files, --resume is required. Captures may have any number of
  bytes and of packets.
  If standard error is a terminal, a run of more than two seconds prints there
  the number of packets read, the packets per second, and the live bindings.
  Warnings are printed even if it is not a terminal, and do not change the status.

--verbose prints a second line on standard error, as at a terminal in any case:
the option, its file, and what is wrong (in a configuration, with the place).
--name NAME writes rows into the log that say whose it is, where a run begins, ends or
fails, and which minutes were quiet; a name has 1 to 64 letters, digits, dots, hyphens
and underscores.
With --end-misfits, the bindings of the state that the configuration does not
accept end at the state's time, also in the log, and a line on standard error
prints their number. All other bindings continue.

Exit status, and the line on standard error that says why: as for napt, with
", $name, ": in place of napt: at its beginning. too-large never occurs, and too-many
only with a log, at packet 4611686018427387904.
  0  success; a line warns if the log begins new entries for the bindings of the
     state, if a packet is earlier than the state, if the captures seem to be
     swapped or of a gateway that chose other numbers, and if a capture is cut
  2  ", $name, ": usage
  3  ", $name, ": config WORD
  4  ", $name, ": capture SIDE WORD
  5  ", $name, ": run WORD
  6  ", $name, ": file OPTION
       for a log that has text or pieces, a second line says why
     ", $name, ": write OPTION
  8  ", $name, ": state WORD"
            ),
        }
    };
}

/// The help of the program under its own name.
pub const OWN: Manual = manual!("stream");

/// The help of the program under the name with which it is installed.
pub const INSTALLED: Manual = manual!("napt-stream");
