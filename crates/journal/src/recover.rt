//! Recovery: what a store is found to hold.
ghost use Rattle.rules.specs.Rules.{ask};
ghost use Rattle.rules.specs.Open.{below, cleared, edge_at, lowest, open_rule, standing, walk_all, weigh};
ghost use Rattle.journal.specs.Configs.{ruled};
ghost use Rattle.journal.specs.Recovery.{Admits, FindsScope, Recovers, Settles, Starts, spanned};

use crate::bounds::{first_position, recover_pruning_boundary};
use crate::clear::complete_clear;
use crate::config::Config;
use crate::fault::Fault;
use crate::live::Live;
use crate::log::Held;
use crate::scope::Scope;
use crate::steps;
use crate::suspects::examine_two;
use crate::walk::recover_by_walking_lengths;
use store::keys::Key;
use store::store::Store;

#[tactic(auto, using(crate::proofs::Recovering::lowest_is, crate::proofs::Taken::answers))]
fn find_start<S: Store>(live: &Live<S>, config: Config, hint: Option<u64>) -> Result<u64, Fault>
    ensures { Starts (ruled config) hint (lowest (S.view live.now.store.now).disk.blobs) result }
{
    recover_pruning_boundary(config, hint, steps::at_or_above(live.store, 0)?)
}

// The ceiling may not be below the start, and each blob's first position is a number.
#[tactic(auto, using(crate::proofs::Recovering::admit_low, crate::proofs::Recovering::admit_ok))]
fn admit<S: Store>(live: &Live<S>, scope: Scope) -> Result<(), Fault>
    ensures { Admits (ruled scope.config) scope.start scope.ceiling (S.view live.now.store.now).disk.blobs result }
{
    scope.reach()?;
    first_position(scope.config, live.highest_below(None)?)?;
    Ok(())
}

// What there is to be recovered, with no clear staged.
fn find_scope<S: Store>(store: &S, config: Config, ceiling: Option<u64>) -> Result<Scope, Fault>
    ensures { FindsScope (ruled config) ceiling (S.view store.now) result }
{
    let hint = steps::look(store, Key::Hint)?;
    let live = Live { store };
    let start = find_start(&live, config, hint)?;
    let scope = Scope {
        config,
        start,
        ceiling,
    };
    admit(&live, scope)?;
    Ok(scope)
}

#[tactic(auto, using(crate::proofs::Recovering::weigh_wrong))]
fn measure<S: Store>(live: &Live<S>, scope: Scope, mark: Option<u64>) -> Result<Held, Fault>
    ensures { Settles (weigh (ruled scope.config) scope.start scope.ceiling (edge_at (ruled scope.config) scope.start scope.ceiling) mark (walk_all (ruled scope.config) scope.start (below (edge_at (ruled scope.config) scope.start scope.ceiling) (S.view live.now.store.now).disk.blobs))) result }
{
    let walked = recover_by_walking_lengths(live, scope)?;
    scope.weigh(mark, walked)
}

// The suspects are examined, and then the lengths are walked.
fn recover_span<S: Store>(store: &mut S, scope: Scope) -> Result<Held, Fault>
    ensures { Recovers (ask (spanned (ruled scope.config) scope.start scope.ceiling (S.view store.old).disk)) (S.view store.old) result (S.view store.new) }
{
    let mark = steps::look(store, Key::Watermark)?;
    examine_two(store, scope, scope.floor(mark))?;
    measure(&Live { store }, scope, mark)
}

fn recover_standing<S: Store>(
    store: &mut S,
    config: Config,
    ceiling: Option<u64>,
) -> Result<Held, Fault>
    ensures { Recovers (ask (standing (ruled config) ceiling (S.view store.old).disk)) (S.view store.old) result (S.view store.new) }
{
    let scope = find_scope(store, config, ceiling)?;
    recover_span(store, scope)
}

// A staged clear is completed, and stays done where the ceiling is refused.
fn recover_cleared<S: Store>(store: &mut S, scope: Scope) -> Result<Held, Fault>
    ensures { Recovers (ask (cleared (ruled scope.config) scope.ceiling (S.view store.old).disk scope.start)) (S.view store.old) result (S.view store.new) }
{
    complete_clear(store, scope.config, scope.start)?;
    scope.reach()?;
    Ok(Held::empty_at(scope.start))
}

pub fn recover_all<S: Store>(
    store: &mut S,
    config: Config,
    ceiling: Option<u64>,
) -> Result<Held, Fault>
    ensures { Recovers (open_rule (ruled config) ceiling (S.view store.old).disk) (S.view store.old) result (S.view store.new) }
{
    match steps::look(store, Key::Target)? {
        Some(start) => recover_cleared(
            store,
            Scope {
                config,
                start,
                ceiling,
            },
        ),
        None => recover_standing(store, config, ceiling),
    }
}
