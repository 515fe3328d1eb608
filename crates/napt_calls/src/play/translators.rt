//! The translators of a pool, and the sides of a packet.

use crate::CallFault;
use crate::play::line::{Line, print_answer};
use napt_config::Config;
use napt_translate::{Answer, End, Leg, Translator, onward, route};
use napt_wire::Packet;

/// A translator for each address of a configuration's pool, in its order.
#[derive(Drop)]
pub(crate) struct Translators {
    config: Config,
    all: Vec<Translator>,
}

/// `translators CONFIGURATION`: returns the translators of the pool.
pub(crate) fn new_translators<R: Print>(line: &mut Line<'_, R>) -> Result<Translators, CallFault> {
    let alloc = line.alloc;
    let config = Config::read(alloc, &line.bytes()?).map_err(|_| CallFault::Config)?;
    let mut all = Vec::new(alloc);
    for index in 0..16u32 {
        if (index as usize) < config.pool().len() {
            let own = config.copy(alloc).map_err(|_| CallFault::Call)?;
            let translator = Translator::new(alloc, index, own).map_err(|_| CallFault::Call)?;
            all.push(translator).map_err(|_| CallFault::Call)?;
        }
    }
    println!(line.rt; "begun").map_err(|_| CallFault::File)?;
    Ok(Translators { config, all })
}

impl Translators {
    /// Returns the translator at the index in the next word.
    fn at<R>(&mut self, line: &mut Line<'_, R>) -> Result<&mut Translator, CallFault> {
        let place = line.short()?;
        self.all.get_mut(usize::from(place)).ok_or(CallFault::Usage)
    }

    /// `route SIDE`: prints the route of the current packet.
    pub(crate) fn print_route<R: Print>(
        &self,
        line: &mut Line<'_, R>,
        packet: &Packet,
    ) -> Result<(), CallFault> {
        print_answer(line.rt, &route(&self.config, line.side()?, packet))
    }

    /// `onward`: prints the onward route of the current packet.
    pub(crate) fn print_onward<R: Print>(
        &self,
        line: &Line<'_, R>,
        packet: &Packet,
    ) -> Result<(), CallFault> {
        print_answer(line.rt, &onward(&self.config, packet))
    }

    /// `translate PLACE NUMBER NOW WAY`: makes a leg of the current packet, which it replaces.
    pub(crate) fn translate<R: Print>(
        &mut self,
        line: &mut Line<'_, R>,
        packet: Packet,
    ) -> Result<Option<Packet>, CallFault> {
        let translator = self.at(line)?;
        let leg = Leg {
            number: line.number()?,
            now: line.number()?,
            way: line.way()?,
            packet,
        };
        let answer = translator
            .translate(line.alloc, leg)
            .map_err(|_| CallFault::Call)?;
        print_end(line.rt, answer)
    }

    /// `rows PLACE NOW`: prints the bindings of a translator.
    pub(crate) fn print_rows<R: Print>(&mut self, line: &mut Line<'_, R>) -> Result<(), CallFault> {
        let translator = self.at(line)?;
        let rows = translator
            .bindings(line.alloc, line.number()?)
            .map_err(|_| CallFault::Call)?;
        print_answer(line.rt, &rows)
    }
}

/// Prints the number and the end of a leg, and returns the packet that leaves.
fn print_end<R: Print>(rt: &R, answer: Answer) -> Result<Option<Packet>, CallFault> {
    let Answer { number, end } = answer;
    print!(rt; "{number} ").map_err(|_| CallFault::File)?;
    let (told, packet) = match end {
        End::ToOutside(packet) => (print!(rt; "ToOutside"), packet),
        End::ToInside(packet) => (print!(rt; "ToInside"), packet),
        End::Onward(place, packet) => (print!(rt; "Onward {place}"), packet),
        End::Dropped(cause) => {
            println!(rt; "Dropped {cause:?}").map_err(|_| CallFault::File)?;
            return Ok(None);
        }
    };
    told.map_err(|_| CallFault::File)?;
    println!(rt; " {:?}", packet.bytes()).map_err(|_| CallFault::File)?;
    Ok(Some(packet))
}
