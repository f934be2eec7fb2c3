//! Which rule refuses an edit.
ghost use Rattle.std.specs.Prelude.{◌≡◌, true, false, not, if◌then◌else◌, length, Some, None, is_some, IfOk, IfSome};
ghost use Rattle.rail_model.specs.declared.items.Item.TheVariants as item;
ghost use Rattle.rail_model.specs.declared.edit.Kind.TheVariants as kind;
ghost use Rattle.rail_model.specs.Tables.{route_named};
ghost use Rattle.rail_model.specs.declared.edit.Rule.TheVariants as rule;
ghost use Rattle.rail_model.specs.Rules as rules;
ghost use Rattle.line_tables.specs.References.{IsNoRoute, rule_of_item, rule_of_references, rule_of_parts, rule_of_key};
ghost use Rattle.line_tables.specs.References.{rule_before_put, rule_before_change};
ghost use Rattle.rail_model.specs.Rules.{IsSound};

use crate::LineTables;
use crate::key_counts::KeyCounts;
use crate::key_set::repeats;
use crate::linked::known_keys;
use rail_model::{
    BLOCKS, Block, CONNECTIONS, Connection, Item, Kind, Name, OutOfMemory, ROUTES, RUNS, Route,
    Rule, Run, SECTIONS, SIGNALS, Section, is_block_within, is_within,
};

impl LineTables {
    // The first rule that refuses to put an item, if one does, but for what a route refers to: that is
    // looked up when the route is put.
    pub(crate) fn rule_before_put(&self, item: &Item) -> Result<Option<Rule>, OutOfMemory>
        ensures { IfOk result (λ rule. rule ≡ rule_before_put self.now item.now) }
    {
        match item {
            Item::Route(_) => Ok(self.rule_of_item(item)),
            Item::Block(_)
            | Item::Signal(_)
            | Item::Run(_)
            | Item::Section(_)
            | Item::Connection(_) => self.rule_of_put(item),
        }
    }

    // The first rule that refuses to change an item, if one does, but for a signal and its block, and
    // for what a route refers to: they are looked up when the item is changed.
    pub(crate) fn rule_before_change(&self, item: &Item) -> Result<Option<Rule>, OutOfMemory>
        ensures { IfOk result (λ rule. rule ≡ rule_before_change self.now item.now) }
    {
        match item {
            Item::Signal(_) | Item::Route(_) => Ok(range_unless(is_within(item))),
            Item::Block(_) | Item::Run(_) | Item::Section(_) | Item::Connection(_) =>
                self.rule_of_change(item),
        }
    }

    // The first rule that refuses to put an item that is no route.
    fn rule_of_put(&self, item: &Item) -> Result<Option<Rule>, OutOfMemory>
        requires { IsNoRoute item.now }
        ensures { IfOk result (λ rule. rule ≡ rules.rule_of_put self.now item.now) }
    {
        if let Some(rule) = self.rule_of_item(item) {
            return Ok(Some(rule));
        }
        self.rule_of_parts(item)
    }

    // The first rule that refuses to put a block, which refers to nothing.
    pub(crate) fn rule_of_block(&self, block: &Block) -> Option<Rule>
        ensures { result ≡ rules.rule_of_put self.now (item.Block block.now) }
    {
        if !is_block_within(block) {
            return Some(Rule::Range);
        }
        if self.is_block_taken(block) {
            return Some(Rule::Twice);
        }
        if self.blocks.len() >= BLOCKS {
            return Some(Rule::Limit);
        }
        None
    }

    // The rule that refuses to put an item whatever it refers to.
    fn rule_of_item(&self, item: &Item) -> Option<Rule>
        ensures { result ≡ rule_of_item self.now item.now }
    {
        if !is_within(item) {
            return Some(Rule::Range);
        }
        if self.is_taken(item) {
            return Some(Rule::Twice);
        }
        if self.is_full(item) {
            return Some(Rule::Limit);
        }
        None
    }

    // The first rule that refuses to change an item that is neither a signal nor a route.
    fn rule_of_change(&self, item: &Item) -> Result<Option<Rule>, OutOfMemory>
        requires repeat { rules.makes_repeat self.now item.now ≡ false }
        requires miscount { rules.makes_miscount self.now item.now ≡ false }
        requires route { IsNoRoute item.now }
        ensures { IfOk result (λ rule. rule ≡ rules.rule_of_change self.now item.now) }
    {
        if !is_within(item) {
            return Ok(Some(Rule::Range));
        }
        if !self.has(item.kind(), item.name()) {
            return Ok(Some(Rule::Unknown));
        }
        self.rule_of_parts(item)
    }

    pub(crate) fn rule_of_drop(&self, kind: Kind, name: &Name) -> Option<Rule>
        ensures { result ≡ rules.rule_of_drop self.now kind name.now }
    {
        match kind {
            Kind::Block => rule_of_key(self.blocks.key_of(name), &self.block_uses),
            Kind::Signal => rule_of_key(self.signals.key_of(name), &self.signal_uses),
            Kind::Route => rule_of_key(self.routes.key_of(name), &self.route_uses),
            Kind::Run => rule_of_key(self.runs.key_of(name), &self.run_uses),
            Kind::Section | Kind::Connection => unknown_unless(self.has(kind, name)),
        }
    }

    /// Whether an item of a kind and a name is there.
    pub fn has(&self, kind: Kind, name: &Name) -> bool
        ensures { result ≡ rules.has self.now kind name.now }
    {
        match kind {
            Kind::Block => self.blocks.key_of(name).is_some(),
            Kind::Signal => self.signals.key_of(name).is_some(),
            Kind::Route => self.routes.key_of(name).is_some(),
            Kind::Run => self.runs.key_of(name).is_some(),
            Kind::Section => self.sections.key_of(name).is_some(),
            Kind::Connection => self.connections.key_of(name).is_some(),
        }
    }

    // A block and a connection may not share a name.
    fn is_taken(&self, item: &Item) -> bool
        ensures { result ≡ rules.is_taken self.now item.now }
    {
        match item {
            Item::Block(block) => self.is_block_taken(block),
            Item::Connection(connection) => {
                self.has(Kind::Connection, &connection.name)
                    || self.has(Kind::Block, &connection.name)
            }
            Item::Signal(_) | Item::Route(_) | Item::Run(_) | Item::Section(_) => {
                self.has(item.kind(), item.name())
            }
        }
    }

    // Whether a block or a connection has the block's name.
    fn is_block_taken(&self, block: &Block) -> bool
        ensures { result ≡ rules.is_taken self.now (item.Block block.now) }
    {
        self.has(Kind::Block, &block.name) || self.has(Kind::Connection, &block.name)
    }

    fn is_full(&self, item: &Item) -> bool
        ensures { result ≡ rules.is_full self.now item.now }
    {
        match item {
            Item::Block(_) => self.blocks.len() >= BLOCKS,
            Item::Signal(_) => self.signals.len() >= SIGNALS,
            Item::Route(_) => self.routes.len() >= ROUTES,
            Item::Run(_) => self.runs.len() >= RUNS,
            Item::Section(_) => self.sections.len() >= SECTIONS,
            Item::Connection(_) => self.connections.len() >= CONNECTIONS,
        }
    }

    // The rule that refuses an item for what it refers to: it isn't there, or it is named twice; or
    // a run for how many legs it has. What a route refers to is looked up where the route is put or
    // changed.
    fn rule_of_parts(&self, item: &Item) -> Result<Option<Rule>, OutOfMemory>
        requires { IsNoRoute item.now }
        ensures { IfOk result (λ rule. rule ≡ rule_of_parts self.now item.now) }
    {
        match item {
            Item::Block(_) => Ok(None),
            Item::Signal(signal) => Ok(unknown_unless(self.has(Kind::Block, &signal.block))),
            Item::Route(_) => unreachable!(),
            Item::Run(run) => Ok(self.rule_of_run(run)),
            Item::Section(section) => self.rule_of_blocks(section),
            Item::Connection(connection) => Ok(self.rule_of_runs(connection)),
        }
    }

    // A run has a leg for each of its route's signals.
    fn rule_of_run(&self, run: &Run) -> Option<Rule>
        ensures { result ≡ rule_of_parts self.now (item.Run run.now) }
    {
        let Some(count) = self.signal_count(&run.route) else {
            return Some(Rule::Unknown);
        };
        if run.legs.len() != count {
            return Some(Rule::Count);
        }
        None
    }

    fn rule_of_blocks(&self, section: &Section) -> Result<Option<Rule>, OutOfMemory>
        ensures { IfOk result (λ rule. rule ≡ rule_of_references self.now (item.Section section.now)) }
    {
        let Some(blocks) = known_keys(self.alloc, &self.blocks, section.blocks.slice())? else {
            return Ok(Some(Rule::Unknown));
        };
        Ok(twice_if(repeats(self.alloc, blocks.slice())?))
    }

    fn rule_of_runs(&self, connection: &Connection) -> Option<Rule>
        ensures { result ≡ rule_of_references self.now (item.Connection connection.now) }
    {
        if !self.has(Kind::Run, &connection.first) || !self.has(Kind::Run, &connection.second) {
            return Some(Rule::Unknown);
        }
        twice_if(connection.first == connection.second)
    }

    // How many signals the route of a name has, if it is there.
    fn signal_count(&self, route: &Name) -> Option<usize>
        ensures there { is_some result ≡ rules.has_route self.now route.now }
        ensures count { IfSome result (λ n. n ≡ length (route_named self.now route.now).signals) }
        ensures sound { IsSound self.now }
    {
        match self.routes.key_of(route) {
            Some(key) => Some(self.routes.get(key).refs.len()),
            None => None,
        }
    }

    // Each run on the route has a leg for each of the signals that it has now.
    pub(crate) fn makes_miscount(&self, route: &Route) -> bool
        requires { rules.has_route self.now route.now.name ≡ true }
        ensures { result ≡ rules.makes_miscount self.now (item.Route route.now) }
    {
        self.signal_count(&route.name).unwrap() != route.signals.len()
            && self.is_route_used(&route.name)
    }

    fn is_route_used(&self, name: &Name) -> bool
        requires { rules.has_route self.now name.now ≡ true }
        ensures { result ≡ rules.is_used self.now kind.Route name.now }
    {
        self.route_uses.of(self.routes.key_of(name).unwrap()) > 0
    }
}

// The rule that refuses to drop an item, by its key and by how often it is referred to.
fn rule_of_key(key: Option<usize>, uses: &KeyCounts) -> Option<Rule>
    ensures { result ≡ rule_of_key uses.now key }
{
    let Some(key) = key else {
        return Some(Rule::Unknown);
    };
    if uses.of(key) > 0 {
        return Some(Rule::InUse);
    }
    None
}

fn range_unless(within: bool) -> Option<Rule>
    ensures { result ≡ (if not within then Some rule.Range else None) }
{
    if within { None } else { Some(Rule::Range) }
}

fn unknown_unless(known: bool) -> Option<Rule>
    ensures { result ≡ (if known then None else Some rule.Unknown) }
{
    if known { None } else { Some(Rule::Unknown) }
}

fn twice_if(twice: bool) -> Option<Rule>
    ensures { result ≡ (if twice then Some rule.Twice else None) }
{
    if twice { Some(Rule::Twice) } else { None }
}
