//! The configuration of a translator.
ghost use Rattle.std.specs.{Prelude.{◌≡◌, ◌==◌, false, Err, IfOk, IsSome, ok_or, position}, Str.is_utf8};
ghost use Rattle.toml.specs.{Parse.parse_document, View.table_view};
ghost use Rattle.napt_config.specs.{Fault.{MakePost, FirstFaultComesFirst}, Configured.{document_of, read_first}, declared.fault.ConfigFault.TheVariants.NotToml};

use crate::{
    ConfigFault, ConfigPlace, Filter, MappingRefresh, NumberAssignment, PortBlock, Prefix,
    Redirect, Timers, blocks, hosts, keys, number_assignment, pairing, reading, redirects,
};
use std::alloc::{AllocError, Global};
use std::collections::BTreeMap;
use std::marker::Model;
use toml::Table;

/// A checked configuration. Each value satisfies these rules:
///
/// - the pool has 1 to 16 addresses, none of them twice and none of them inside;
/// - there are 1 to 16 inside prefixes, with no bits set past their length;
/// - the timers are at least 120 (UDP), 7440 (established), 240 (transitory) and 60 seconds (ICMP), and at most
///   1,000,000,000 seconds, as is a hold;
/// - a ring has 1 to 4096 slots;
/// - a quota, if there is one, allows 1 to 65535 bindings;
/// - a block, if there is one, has an even number of external numbers from 64 to 32256; then no two prefixes have an
///   address in common, every inside host has a block, and no host has a `pair` entry;
/// - at most 256 inside hosts are paired by an entry of their own, each once, with a pool address;
/// - there are at most 256 redirects, each of an inside host and with ports that are not 0; with blocks, an external
///   port above 1023 is in the host's block; no two redirects of one protocol share an inside or an external endpoint.
#[derive(Debug, Drop)]
pub struct Config {
    pool: Vec<u32>,
    inside: Vec<Prefix>,
    filter: Filter,
    refresh: MappingRefresh,
    choosing: NumberAssignment,
    timers: Timers,
    ring: usize,
    quota: Option<u16>,
    block: Option<u16>,
    pairs: BTreeMap<u32, u32>,
    redirects: Vec<Redirect>,
}

impl Model for Config {
    ghost use Rattle.napt_config.specs.Rules.{Rules, RulesInvariant};

    ghost Value = { Rules };

    ghost use Rattle.napt_config.specs.ConfigModels.{config_model};

    ghost view = { config_model };

    ghost invariant = { λ config. RulesInvariant (config_model config) };
}

impl Config {
    ghost use Rattle.napt_config.specs.Prefixes.{address_count};
    ghost use Rattle.napt_config.specs.Rules.{RulesInvariant, pair_of, is_inside, pool_place, block_of, host_of};
    ghost use Rattle.napt_config.specs.Configured.{configured, configuration_of, built_in};

    /// Reads the text of a configuration. Returns the configuration, or the fault of the first rule
    /// that the text breaks, or `ConfigFault::Memory` if memory is refused before that. A text that
    /// is not UTF-8 is refused before any memory is allocated.
    pub fn read(alloc: Global, text: &[u8]) -> Result<Config, ConfigFault>
        ensures exact { MakePost (λ config. config) result (configuration_of text.now) }
        ensures encoded { is_utf8 text.now ≡ false → result ≡ Err NotToml }
        ensures kept { IfOk result RulesInvariant }
    {
        Config::read_at(alloc, text, &mut ConfigPlace::new())
    }

    /// Reads the text of a configuration, as `read` does. After a fault, the place is that of the
    /// rule that the text breaks.
    #[tactic(auto, unfolding(crate::specs::Configured::configuration_of))]
    pub fn read_at(
        alloc: Global,
        text: &[u8],
        place: &mut ConfigPlace,
    ) -> Result<Config, ConfigFault>
        ensures exact { MakePost (λ config. config) result (configuration_of text.now) }
        ensures encoded { is_utf8 text.now ≡ false → result ≡ Err NotToml }
        ensures kept { IfOk result RulesInvariant }
    {
        let table = document(alloc, text, place)?;
        match Config::from_table(alloc, &table, place) {
            Ok(config) => Ok(config),
            Err(fault) => {
                place.find_line(text);
                Err(fault)
            }
        }
    }

    /// Returns the configuration of a table, or the fault of the first rule that it breaks.
    #[tactic(auto, unfolding(crate::specs::Configured::configured, crate::specs::Configured::read_first))]
    fn from_table(
        alloc: Global,
        table: &Table,
        place: &mut ConfigPlace,
    ) -> Result<Config, ConfigFault>
        ensures exact { MakePost (λ config. config) result (configured (table_view table.now)) }
        ensures first { FirstFaultComesFirst (read_first (table_view table.now)) result }
        ensures kept { IfOk result RulesInvariant }
    {
        if !keys::knows_all_keys(alloc, table, place) {
            return Err(ConfigFault::UnknownKey);
        }
        let pool = reading::pool(alloc, table, place)?;
        let inside = reading::inside(alloc, table, &pool, place)?;
        let filter = reading::filter(table, place)?;
        let refresh = reading::refresh(table, place)?;
        let choosing = number_assignment::choosing(table, place)?;
        let timers = reading::timers(table, place)?;
        let ring = reading::ring(table, place)?;
        let quota = reading::quota(table, place)?;
        let block = reading::block(table, &pool, &inside, timers.hold, place)?;
        let pairs = reading::pairs(alloc, table, &pool, &inside, place)?;
        let redirects = redirects::redirects(alloc, table, block, &inside, &pool, &pairs, place)?;
        Ok(Config {
            pool,
            inside,
            filter,
            refresh,
            choosing,
            timers,
            ring,
            quota,
            block,
            pairs,
            redirects,
        })
    }

    /// Returns the configuration that is used without a text: the pool is 203.0.113.1, the private
    /// networks of RFC 1918 are inside, and every other key has its default.
    #[tactic(auto, unfolding(crate::specs::Rules::block_in))]
    pub fn built_in(alloc: Global) -> Result<Config, AllocError>
        ensures exact { IfOk result (λ config. config ≡ built_in) }
        ensures kept { IfOk result RulesInvariant }
    {
        let pool = Vec::from_slice(alloc, &[0xCB00_7101])?;
        let inside = Prefix::private_networks(alloc)?;
        Ok(Config {
            pool,
            inside,
            filter: Filter::Independent,
            refresh: MappingRefresh::Outbound,
            choosing: NumberAssignment::DEFAULT,
            timers: Timers::DEFAULT,
            ring: reading::DEFAULT_SLOTS,
            quota: None,
            block: None,
            pairs: BTreeMap::new(alloc),
            redirects: Vec::new(alloc),
        })
    }

    /// Returns an equal configuration. Fails only if memory is refused.
    pub fn copy(&self, alloc: Global) -> Result<Config, AllocError>
        ensures { IfOk result (λ config. config ≡ self.now) }
    {
        Ok(Config {
            pool: Vec::from_slice(alloc, &self.pool)?,
            inside: Vec::from_slice(alloc, &self.inside)?,
            filter: self.filter,
            refresh: self.refresh,
            choosing: self.choosing,
            timers: self.timers,
            ring: self.ring,
            quota: self.quota,
            block: self.block,
            pairs: self.pairs.clone()?,
            redirects: Vec::from_slice(alloc, &self.redirects)?,
        })
    }

    /// Returns the external address of a host (RFC 4787, section 4.1, "paired" pooling):
    ///
    /// - with a `pair` entry for the host, the address in that entry;
    /// - with blocks, the pool address at the inside host's index modulo the pool's size;
    /// - otherwise, the pool address at the host's address, as a number, modulo the pool's size.
    ///
    /// Takes no memory. The time is logarithmic in the number of `pair` entries or, with blocks,
    /// linear in the number of prefixes.
    pub fn pair(&self, host: u32) -> u32
        ensures address { result ≡ pair_of self.now host }
        ensures in_pool { IsSome (pool_place self.now result) }
        ensures kept { RulesInvariant self.now }
    {
        pairing::pair(self.block, &self.inside, &self.pool, &self.pairs, host)
    }

    /// Returns the block of an inside host (RFC 7422, section 2): the numbers of its external
    /// address that are reserved for the host, in each protocol. Returns `None` if hosts have no
    /// blocks.
    ///
    /// The index of a host is its position, from 0, among the addresses of all inside prefixes in
    /// their order. At each external address, the blocks begin at 1024 and are in ascending order
    /// of the index.
    pub fn block_of(&self, host: u32) -> Option<PortBlock>
        ensures block { result ≡ block_of self.now host }
        ensures kept { RulesInvariant self.now }
    {
        blocks::block_of(self.block, &self.inside, self.pool.len(), host)
    }

    /// Returns whether the address is in one of the inside prefixes.
    pub fn is_inside(&self, address: u32) -> bool
        ensures { result ≡ is_inside self.now address }
    {
        reading::have_address(&self.inside, address)
    }

    /// Returns the place of the address in the pool, from 0, or `None` if it is not in the pool.
    pub fn pool_index(&self, address: u32) -> Option<u32>
        ensures place { result ≡ pool_place self.now address }
        ensures kept { RulesInvariant self.now }
    {
        let place = place_in(&self.pool, address)?;
        Some(place as u32)
    }

    /// Returns the inside prefixes, of which there are 1 to 16.
    pub fn inside(&self) -> &[Prefix]
        ensures prefixes { result.now ≡ self.now.inside }
        ensures kept { RulesInvariant self.now }
    {
        self.inside.as_slice()
    }

    /// Returns the pool: 1 to 16 external addresses, as numbers.
    pub fn pool(&self) -> &[u32]
        ensures addresses { result.now ≡ self.now.pool }
        ensures kept { RulesInvariant self.now }
    {
        self.pool.as_slice()
    }

    /// Returns the static redirects in the order of the text: at most 256, each of an inside host,
    /// with nonzero ports. No two of one protocol share an inside or an external endpoint.
    pub fn redirects(&self) -> &[Redirect]
        ensures redirects { result.now ≡ self.now.redirects }
        ensures kept { RulesInvariant self.now }
    {
        self.redirects.as_slice()
    }

    /// Returns the number of slots of each ring, from 1 to 4096.
    pub fn ring(&self) -> usize
        ensures slots { result ≡ self.now.ring }
        ensures kept { RulesInvariant self.now }
    {
        self.ring
    }

    /// Returns how many bindings, over all protocols, an inside host may have at its external
    /// address (RFC 6888, REQ-4): 1 to 65535, without redirects, or `None` if there is no limit.
    pub fn quota(&self) -> Option<u16>
        ensures quota { result ≡ self.now.quota }
        ensures kept { RulesInvariant self.now }
    {
        self.quota
    }

    /// Returns the number of external numbers in each host's block, an even number from 64 to
    /// 32256, or `None` if hosts have no blocks.
    pub fn block(&self) -> Option<u16>
        ensures size { result ≡ self.now.block }
        ensures kept { RulesInvariant self.now }
    {
        self.block
    }

    /// Returns the inside host whose block has this external endpoint, at any time, or `None` if
    /// there is none. Takes time linear in the numbers of addresses and of prefixes, and no memory.
    pub fn host_of(&self, address: u32, number: u16) -> Option<u32>
        ensures host { result ≡ host_of self.now address number }
        ensures kept { RulesInvariant self.now }
    {
        let size = self.block?;
        let place = self.pool_index(address)?;
        blocks::host_at(size, &self.inside, self.pool.len(), number, place)
    }

    /// Returns the number of inside hosts: addresses in one or more prefixes, each counted once.
    pub fn host_count(&self) -> u64
        ensures count { result ≡ address_count self.now.inside self.now.inside }
        ensures kept { RulesInvariant self.now }
    {
        hosts::address_count(&self.inside)
    }

    /// Returns which remotes may send in through a binding.
    pub fn filter(&self) -> Filter
        ensures { result ≡ self.now.filter }
    {
        self.filter
    }

    /// Returns which UDP packets refresh a binding.
    pub fn refresh(&self) -> MappingRefresh
        ensures { result ≡ self.now.refresh }
    {
        self.refresh
    }

    /// Returns how new external numbers are chosen, by the keys `parity`, `numbers` and `seed`.
    pub fn choosing(&self) -> NumberAssignment
        ensures { result ≡ self.now.choosing }
    {
        self.choosing
    }

    /// Returns the idle timers and the hold, in seconds.
    pub fn timers(&self) -> Timers
        ensures timers { result ≡ self.now.timers }
        ensures kept { RulesInvariant self.now }
    {
        self.timers
    }
}

/// Returns the index of the address in the pool, or `None` if it is not in the pool.
fn place_in(pool: &[u32], address: u32) -> Option<usize>
    ensures { result ≡ position (λ other. other == address) pool.now }
{
    pool.iter().position(|other| *other == address)
}

/// Parses a TOML text. Fails with `NotToml`, or with `Memory` if memory is refused.
fn table_of(alloc: Global, text: &str, place: &mut ConfigPlace) -> Result<Table, ConfigFault>
    ensures { MakePost table_view result (ok_or (parse_document text.now) NotToml) }
{
    match toml::table_from_str(alloc, text) {
        Ok(table) => Ok(table),
        Err(error) if error.is_memory() => Err(ConfigFault::Memory),
        Err(error) => {
            place.at_syntax(alloc, text, &error);
            Err(ConfigFault::NotToml)
        }
    }
}

/// Parses a text that must be TOML in UTF-8. Fails with `NotToml` or `Memory`.
#[tactic(auto, unfolding(crate::specs::Configured::document_of))]
fn document(alloc: Global, text: &[u8], place: &mut ConfigPlace) -> Result<Table, ConfigFault>
    ensures exact { MakePost table_view result (ok_or (document_of text.now) NotToml) }
    ensures encoded { is_utf8 text.now ≡ false → result ≡ Err NotToml }
{
    match str::from_utf8(text) {
        Ok(text) => table_of(alloc, text, place),
        Err(_) => Err(ConfigFault::NotToml),
    }
}
