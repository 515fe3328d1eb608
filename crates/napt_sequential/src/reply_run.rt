//! Readdresses replies that were captured inside to the external endpoint that their inside
//! endpoint has when they arrive.

ghost use Rattle.std.specs.{Prelude.{◌≡◌, ◌<◌, ◌≤◌, ◌^◌, ◌↔◌, ℕ, length, [], Some, Ok, Err, IfOk, IfErr, IfSome, OnOk}, Option.option_map, List.slice_get};
ghost use Rattle.napt_wire.specs.{Fields.{kind, CanCarry}, Reading.reading};
ghost use Rattle.napt_wire.specs.declared.Side.TheVariants as sides;
ghost use Rattle.napt_config.specs.Rules.{Rules, RulesInvariant};
ghost use Rattle.napt_rules.specs.Prelude.{IsNumber};
ghost use Rattle.napt_follow.specs.Following as following;
ghost use Rattle.napt_sequential.specs.CountedTranslators.{SequentialRunModel, AreCountedTranslators, StaysCounted, StayCounted, state_of};
ghost use Rattle.napt_sequential.specs.{Numbers.{reply_number_in, reply_number_at}, Faults.IsOneThreadFault};

use crate::counted_translator::CountedTranslator;
use crate::run::{begin, step};
use crate::{Input, MOST_INPUTS, RunFault};
use napt_config::Config;
use napt_wire::{Endpoint, Kind, Packet, Protocol, Side, Way, packets_go_where_they_are_sent};
use std::alloc::{AllocError, Global};

/// Returns the protocol of the binding through which a packet comes in.
fn protocol_by(kind: Kind) -> Protocol
    ensures { result ≡ following.protocol_by kind }
{
    match kind {
        Kind::Udp => Protocol::Udp,
        Kind::Tcp(_) => Protocol::Tcp,
        Kind::Echo => Protocol::Icmp,
        Kind::ErrorOf(inner) => inner.protocol,
    }
}

impl CountedTranslator {
    /// Returns the external number of an inside endpoint at `now`, in ns, or else the least number
    /// from 1 on that no live or held binding has, or `None` if each is in use.
    fn number(&mut self, now: u64, protocol: Protocol, inside: Endpoint) -> Option<u16>
        ensures value { result ≡ reply_number_in now protocol inside self.old }
        ensures named { IfSome result (IsNumber protocol) }
        ensures left { StaysCounted now self.old self.new }
    {
        if let Some(number) = self.translator.by_inside(now, protocol, inside) {
            return Some(number);
        }
        let translator = &mut self.translator;
        translator.free_number(now, protocol)
    }
}

/// Returns the number to which a reply is sent at the external address with pool index `place`.
fn number(
    translators: &mut [CountedTranslator],
    place: u32,
    now: u64,
    protocol: Protocol,
    inside: Endpoint,
) -> Option<u16>
    requires { place < length translators.old }
    ensures value { (rules : Rules) (state : SequentialRunModel) (address : ℕ) →
        AreCountedTranslators rules state translators.old → state.clock ≤ now →
        slice_get rules.pool place ≡ Some address →
        result ≡ reply_number_at rules address now state.list protocol inside }
    ensures named { IfSome result (IsNumber protocol) }
    ensures left { (rules : Rules) → StayCounted rules now translators.old translators.new }
{
    translators[place as usize].number(now, protocol, inside)
}

/// Returns the external endpoint to which a reply to this inside endpoint is sent, if any.
fn target(
    config: &Config,
    translators: &mut [CountedTranslator],
    now: u64,
    protocol: Protocol,
    inside: Endpoint,
) -> Option<Endpoint>
    requires keeps { RulesInvariant config.now }
    requires many { length translators.old ≡ length config.now.pool }
    ensures value { (state : SequentialRunModel) →
        AreCountedTranslators config.now state translators.old → state.clock ≤ now →
        result ≡ following.reply_target config.now now state.list protocol inside }
    ensures named { IfSome result (λ end. IsNumber protocol end.number) }
    ensures left { StayCounted config.now now translators.old translators.new }
{
    if !config.is_inside(inside.address) {
        return None;
    }
    let address = config.pair(inside.address);
    let place = config.pool_index(address)?;
    let number = number(translators, place, now, protocol, inside)?;
    Some(Endpoint { address, number })
}

/// Replaces the inside endpoint that a packet names by `end`.
fn readdress(packet: &mut Packet, end: Endpoint)
    requires { CanCarry (kind packet.old) end.number }
    ensures { packet.new ≡ following.readdressed (kind packet.old) end packet.old }
{
    match packet.kind() {
        Kind::Udp | Kind::Tcp(_) | Kind::Echo => packet.set_destination(end),
        Kind::ErrorOf(_) => packet.revert_inner(Way::Incoming, end),
    }
}

/// Readdresses a reply to the external endpoint of its inside endpoint at `now`, in ns.
fn send(config: &Config, translators: &mut [CountedTranslator], now: u64, packet: &mut Packet)
    requires keeps { RulesInvariant config.now }
    requires many { length translators.old ≡ length config.now.pool }
    requires reads { reading sides.Outside packet.old ≡ Ok packet.old }
    ensures value { (state : SequentialRunModel) →
        AreCountedTranslators config.now state translators.old →
        state.clock ≤ now →
        packet.new ≡ following.packet_followed config.now now state.list packet.old }
    ensures left { StayCounted config.now now translators.old translators.new }
{
    packets_go_where_they_are_sent();
    let inside = packet.local_end(Way::Incoming);
    let end = match target(config, translators, now, protocol_by(packet.kind()), inside) {
        Some(end) => end,
        None => Endpoint {
            address: packet.source().address,
            number: inside.number,
        },
    };
    readdress(packet, end);
}

/// Readdresses the bytes of a reply, as `send` does. Does not change bytes that are not a packet.
fn sent(config: &Config, translators: &mut [CountedTranslator], now: u64, bytes: Vec<u8>) -> Vec<u8>
    requires keeps { RulesInvariant config.now }
    requires many { length translators.old ≡ length config.now.pool }
    ensures value { (state : SequentialRunModel) →
        AreCountedTranslators config.now state translators.old →
        state.clock ≤ now →
        result.items ≡ following.following_as config.now now state.list bytes.items
        (reading sides.Outside bytes.items) }
    ensures left { StayCounted config.now now translators.old translators.new }
{
    match Packet::read(Side::Outside, bytes) {
        Ok(mut packet) => {
            send(config, translators, now, &mut packet);
            packet.into_bytes()
        }
        Err((_, bytes)) => bytes,
    }
}

/// Returns the input that the run gets at `now`, in ns: only an input from outside changes.
fn follow(config: &Config, translators: &mut [CountedTranslator], now: u64, input: Input) -> Input
    requires keeps { RulesInvariant config.now }
    requires many { length translators.old ≡ length config.now.pool }
    ensures value { (state : SequentialRunModel) →
        AreCountedTranslators config.now state translators.old →
        state.clock ≤ now →
        result ≡ following.follow config.now now state.list input }
    ensures left { StayCounted config.now now translators.old translators.new }
{
    match input.side {
        Side::Inside => input,
        Side::Outside => {
            let Input {
                side,
                time,
                clock,
                bytes,
            } = input;
            let bytes = sent(config, translators, now, bytes);
            Input {
                side,
                time,
                clock,
                bytes,
            }
        }
    }
}

/// Returns the inputs that the run gets. Creates the run at the same time, and drops it.
fn follow_all(
    alloc: Global,
    config: &Config,
    translators: &mut [CountedTranslator],
    inputs: Vec<Input>,
) -> Result<Vec<Input>, AllocError>
    requires keeps { RulesInvariant config.now }
    requires few { length inputs.items < 2 ^ 32 }
    requires fresh { AreCountedTranslators config.now (state_of config.now []) translators.old }
    ensures { IfOk result (λ got. got.items ≡ following.followed config.now inputs.items) }
{
    let mut got = Vec::with_capacity(alloc, inputs.len())?;
    let mut last = 0u64;
    for input in inputs {
        last = last.max(input.clock);
        let number = got.len() as u64;
        let next = follow(config, translators, last, input);
        let stepped = step(alloc, config, translators, number, last, &next)?;
        drop(stepped);
        got.push(next)?;
    }
    Ok(got)
}

/// Returns the inputs of a run whose packets from outside are replies, given as inside hosts
/// received them. Each reply is readdressed to the external endpoint that its inside endpoint has
/// when the reply arrives, and then comes in as any packet from outside does. A run over these
/// inputs is the run that the replies follow. The side and the time of each input do not change,
/// and its bytes are not copied.
///
/// Fails with `RunFault::TooMany` exactly if there are more than `MOST_INPUTS` inputs, with
/// `RunFault::Memory` only if memory is refused, and never with `RunFault::Pool`.
pub fn followed(alloc: Global, config: &Config, inputs: Vec<Input>) -> Result<Vec<Input>, RunFault>
    ensures inputs { IfOk result (λ got. got.items ≡ following.followed config.now inputs.items) }
    ensures too_many { (result ≡ Err RunFault.TooMany) ↔ (2 ^ 32 ≤ length inputs.items) }
    ensures never_pool { IfErr result IsOneThreadFault }
{
    if inputs.len() > MOST_INPUTS {
        return Err(RunFault::TooMany);
    }
    let mut translators = begin(alloc, config)?;
    Ok(follow_all(alloc, config, &mut translators, inputs)?)
}
