//! Adding an item to the tables. No rule refuses it, save one of what a route refers to; without
//! memory the tables stay as they were.
ghost use Rattle.std.specs.Prelude.{◌≡◌, ℕ, ◌+◌, false, Some, None, IfOk, IfErr, OnOk, OnErr};
ghost use Rattle.rail_model.specs.declared.items.Item.TheVariants as item;
ghost use Rattle.rail_model.specs.Rules.{rule_of_put, is_named, after_put, with_item};
ghost use Rattle.line_tables.specs.AnswersEdit.{AnswersEdit};
ghost use Rattle.line_tables.specs.References.{rule_of_item};
ghost use Rattle.line_tables.specs.Table.{under, IsTable};
ghost use Rattle.line_tables.specs.KeyCounts.{count_of, times, SameCounts};
ghost use Rattle.line_tables.specs.RouteSets.{SameSets, IsPutAt};

use crate::LineTables;
use crate::kept_route::KeptRoute;
use crate::key_counts::KeyCounts;
use crate::linked::{Linked, keys_of, put_linked, take_linked};
use crate::named_table::NamedTable;
use crate::route_sets::RouteSets;
use crate::route_signals::{RouteSignals, route_signals};
use rail_model::{Block, Connection, Named, OutOfMemory, Route, Rule, Run, Section, Signal};

impl LineTables {
    pub(crate) fn add_block(&mut self, block: Block) -> Result<(), OutOfMemory>
        requires { rule_of_put self.old (item.Block block) ≡ None }
        ensures put { OnOk result (self.new ≡ after_put self.old (item.Block block)) }
        ensures kept { OnErr result (self.new ≡ self.old) }
    {
        self.blocks.put(block)?;
        Ok(())
    }

    pub(crate) fn add_signal(&mut self, signal: Signal) -> Result<(), OutOfMemory>
        requires { rule_of_put self.old (item.Signal signal) ≡ None }
        ensures put { OnOk result (self.new ≡ after_put self.old (item.Signal signal)) }
        ensures kept { OnErr result (self.new ≡ self.old) }
    {
        let refs = keys_of(self.alloc, &self.blocks, &[signal.block])?;
        put_linked(&mut self.signals, &mut self.block_uses, signal, refs)?;
        Ok(())
    }

    // Puts a route in, or tells the rule by which what it refers to refuses it. Its signals are
    // looked up once: for the rules, for its entry, for the counts and for the sets.
    pub(crate) fn put_route(&mut self, route: &Route) -> Result<Result<(), Rule>, OutOfMemory>
        requires { rule_of_item self.old (item.Route route.now) ≡ None }
        ensures { AnswersEdit (rule_of_put self.old (item.Route route.now)) (after_put self.old (item.Route route.now))
            result self.old self.new }
    {
        self.blocks.learn_order();
        let Some(found) = route_signals(self.alloc, &self.signals, &route.signals)? else {
            return Ok(Err(Rule::Unknown));
        };
        if found.twice {
            return Ok(Err(Rule::Twice));
        }
        enter_route(
            &mut self.routes,
            &mut self.signal_uses,
            &mut self.route_sets,
            KeptRoute { name: route.name },
            found,
        )?;
        Ok(Ok(()))
    }

    pub(crate) fn add_run(&mut self, run: Run) -> Result<(), OutOfMemory>
        requires { rule_of_put self.old (item.Run run) ≡ None }
        ensures put { OnOk result (self.new ≡ after_put self.old (item.Run run)) }
        ensures kept { OnErr result (self.new ≡ self.old) }
    {
        let refs = keys_of(self.alloc, &self.routes, &[run.route])?;
        put_linked(&mut self.runs, &mut self.route_uses, run, refs)?;
        Ok(())
    }

    pub(crate) fn add_section(&mut self, section: Section) -> Result<(), OutOfMemory>
        requires { rule_of_put self.old (item.Section section) ≡ None }
        ensures put { OnOk result (self.new ≡ after_put self.old (item.Section section)) }
        ensures kept { OnErr result (self.new ≡ self.old) }
    {
        let refs = keys_of(self.alloc, &self.blocks, section.blocks.slice())?;
        put_linked(&mut self.sections, &mut self.block_uses, section, refs)?;
        Ok(())
    }

    pub(crate) fn add_connection(&mut self, connection: Connection) -> Result<(), OutOfMemory>
        requires { rule_of_put self.old (item.Connection connection) ≡ None }
        ensures put { OnOk result (self.new ≡ after_put self.old (item.Connection connection)) }
        ensures kept { OnErr result (self.new ≡ self.old) }
    {
        let refs = keys_of(
            self.alloc,
            &self.runs,
            &[connection.first, connection.second],
        )?;
        put_linked(&mut self.connections, &mut self.run_uses, connection, refs)?;
        Ok(())
    }
}

// Puts a route of a new name in, counts its signals, and puts its key into their sets and into
// those of their blocks. Without memory all stays.
fn enter_route(
    routes: &mut NamedTable<Linked<KeptRoute>>,
    uses: &mut KeyCounts,
    sets: &mut RouteSets,
    route: KeptRoute,
    found: RouteSignals,
) -> Result<usize, OutOfMemory>
    requires { is_named (λ e. e.1.item.name) routes.old route.name ≡ false }
    ensures put { IfOk result (λ key. routes.new ≡ with_item (λ e. e.1.item.name) routes.old
        (key, record { item = route; refs = found.keys })) }
    ensures fresh { IfOk result (λ key. under routes.old key ≡ None) }
    ensures counted { OnOk result
        ((k : ℕ) → count_of uses.new k ≡ count_of uses.old k + times k found.keys) }
    ensures signals { IfOk result
        (λ key. IsPutAt (λ q. q) found.keys key sets.old.of_signals sets.new.of_signals) }
    ensures blocks { IfOk result
        (λ key. IsPutAt (λ q. q) found.blocks key sets.old.of_blocks sets.new.of_blocks) }
    ensures kept { OnErr result (routes.new ≡ routes.old) }
    ensures kept_counts { OnErr result (SameCounts uses.old uses.new) }
    ensures kept_signals { OnErr result (SameSets sets.old.of_signals sets.new.of_signals) }
    ensures kept_blocks { OnErr result (SameSets sets.old.of_blocks sets.new.of_blocks) }
    ensures table { OnOk result (IsTable (λ e. e.item.name) routes.old) }
{
    let name = *route.name();
    let key = put_linked(routes, uses, route, found.keys)?;
    let signals = routes.get(key).refs.slice();
    if sets.make_room(signals, found.blocks.slice(), key).is_err() {
        take_linked(routes, uses, &name);
        return Err(OutOfMemory);
    }
    sets.put(signals, found.blocks.slice(), key);
    Ok(key)
}
