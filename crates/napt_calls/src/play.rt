//! Makes the calls in the lines of standard input, and prints their answers, for unproved tests.
//!
//! `tests/played` writes these lines from the texts of `tests/calls`, and compares the answers. A
//! line contains words separated by blanks, the first of which names the call. All numbers are
//! decimal: bytes one by one, times in ns, an address as one number, an endpoint as its address and
//! its number. An answer is printed by `{:?}`.
//!
//! [`packets`] reads and changes the current packet, [`table`] calls the current table,
//! [`translators`] the current translators, over the current packet, [`captures`] reads and writes
//! captures, [`merging`] merges two, [`settings`] reads configurations, and [`logs`] logs runs.

mod captures;
mod line;
mod logs;
mod merging;
mod packets;
mod settings;
mod table;
mod translators;

use self::line::Line;
pub(crate) use self::table::is_number;
use self::translators::Translators;
use crate::CallFault;
use napt_config::Config;
use napt_table::Table;
use napt_wire::Packet;
use std::io::{BufRead, BufReader};

/// The values on which the calls are made.
#[derive(Drop)]
struct Player {
    packet: Option<Packet>,
    table: Option<Box<Table>>,
    translators: Option<Translators>,
    config: Option<Config>,
    /// The inputs of the current configuration.
    inputs: Vec<napt_sequential::Input>,
}

/// Makes the calls, up to the end or to a line without a valid call.
pub(crate) fn play_calls<R: Input + Print + AllocGlobal>(rt: &R) -> Result<(), CallFault> {
    let alloc = rt.alloc();
    let reader = BufReader::new(alloc, rt.reader()).map_err(|_| CallFault::Call)?;
    let mut player = Player {
        packet: None,
        table: None,
        translators: None,
        config: None,
        inputs: Vec::new(alloc),
    };
    for text in reader.lines(alloc) {
        let text = text.map_err(|_| CallFault::File)?;
        player.play(&mut Line::new(rt, alloc, text.as_str()))?;
    }
    Ok(())
}

impl Player {
    /// Makes the call of a line, and prints its answer.
    fn play<R: Print>(&mut self, line: &mut Line<'_, R>) -> Result<(), CallFault> {
        let call = line.word()?;
        match call {
            "read" => self.packet = packets::read(line)?,
            "table" => self.table = Some(table::new_table(line)?),
            "translators" => self.translators = Some(translators::new_translators(line)?),
            "fix_check" | "fix_check_udp" => packets::print_check(line, call)?,
            "read_capture" => captures::print_read(line)?,
            "write_capture" => captures::print_written(line)?,
            "merge" => merging::print_merged(line)?,
            "streams" => merging::print_read(line)?,
            "stream" => merging::print_alone(line)?,
            "translate" | "route" | "onward" | "rows" => self.translated(line, call)?,
            "settings" | "built_in" | "copy" => self.configure(line, call)?,
            "input" => logs::take_input(line, &mut self.inputs)?,
            "logged" => logs::print_log(line, self.config.as_ref(), &self.inputs)?,
            "bytes"
            | "local_end"
            | "remote_end"
            | "set_source"
            | "set_destination"
            | "revert_inner" => {
                let packet = self.packet.as_mut().ok_or(CallFault::Usage)?;
                packets::answer(line, packet, call)?
            }
            "outbound" | "inbound" | "by_external" | "by_inside" | "bindings" | "count" => {
                let table = self.table.as_mut().ok_or(CallFault::Usage)?;
                table::answer(line, table, call)?
            }
            _ => {
                let config = self.config.as_ref().ok_or(CallFault::Usage)?;
                settings::answer(line, config, call)?
            }
        }
        Ok(())
    }

    /// Makes another configuration the current one, without inputs.
    fn configure<R: Print>(&mut self, line: &mut Line<'_, R>, call: &str) -> Result<(), CallFault> {
        self.inputs.clear();
        self.config = match call {
            "settings" => settings::read(line)?,
            "copy" => settings::made(line, self.config.as_ref())?,
            _ => settings::made(line, None)?,
        };
        Ok(())
    }

    /// Makes a call on the current translators.
    fn translated<R: Print>(
        &mut self,
        line: &mut Line<'_, R>,
        call: &str,
    ) -> Result<(), CallFault> {
        let translators = self.translators.as_mut().ok_or(CallFault::Usage)?;
        if call == "rows" {
            return translators.print_rows(line);
        }
        let packet = self.packet.take().ok_or(CallFault::Usage)?;
        match call {
            "route" => translators.print_route(line, &packet)?,
            "onward" => translators.print_onward(line, &packet)?,
            _ => {
                self.packet = translators.translate(line, packet)?;
                return Ok(());
            }
        }
        self.packet = Some(packet);
        Ok(())
    }
}
