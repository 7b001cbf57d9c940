//! One iteration of a search: the caller examines a layer, and the workers make the next one.
ghost use Rattle.std.specs.Prelude.{◌≡◌, ℕ, IfOk, IfSome, IsSome, None, Ok, Some, slice_get};
ghost use Rattle.layers.specs.BookView.{BookView};
ghost use Rattle.layers.specs.Books.{MayBegin};
ghost use Rattle.crew.specs.Configured.{IsWithinLimits};
ghost use Rattle.crew.specs.Lending.{ComeBack};
ghost use Rattle.crew.specs.inside.States.{IsStateOf};
ghost use Rattle.crew.specs.inside.Iterations.{ArePausedBy, AreWorkedBy, IsIterationEnd};
ghost use Rattle.solo.specs.inside.Searched.{IsExamined};

use crate::closing::finish_all;
use crate::config::Config;
use crate::gate::Gate;
use crate::lent::{come_back, lend};
use crate::settings::{SearchState, Settings};
use layers::{Book, Layer};
use solo::{Answer, Search, begin_each, last_layer};
use std::alloc::AllocError;
use std::mem::replace;
use std::sync::Wait;
use std::thread::Threads;

// How an iteration ended.
#[derive(Drop)]
pub(crate) enum IterationEnd {
    // The next layer is closed in these books.
    Onward(Vec<Book>),
    // There is an answer.
    Found(Answer),
    // Other books came back than those lent.
    Foreign,
}

// Examines the last layer that the books closed, and lets the workers work through it if it gives no answer. Fails only
// if out of memory.
pub(crate) fn iterate<R: Threads + Wait + Sync, G: Gate + Sync>(
    rt: &R,
    settings: &Settings<'_, G>,
    books: Vec<Book>,
    state: &mut SearchState<'_>,
) -> Result<IterationEnd, AllocError>
    requires limits { IsWithinLimits settings.now.config }
    requires paused { ArePausedBy settings.now.config state.old.search books.items }
    requires state { IsStateOf settings.now.config state.old }
    ensures outcome { IfOk result
        (λ outcome. IsIterationEnd settings.now.config state.old.search state.new.search outcome) }
    ensures desks { state.new.desks ≡ state.old.desks }
{
    let memory = replace(&mut state.memory, Vec::new(settings.alloc));
    let layer = last_layer(settings.alloc, books.as_slice(), memory)?;
    if let Some(answer) = state.search.look(&layer)? {
        return Ok(IterationEnd::Found(answer));
    }
    let Some((within, after)) = work_through(rt, settings, books, &layer, state)? else {
        return Ok(IterationEnd::Foreign);
    };
    if !within {
        return Ok(IterationEnd::Found(Answer::Limit));
    }
    state.memory = state.search.push(layer)?;
    Ok(IterationEnd::Onward(after))
}

// Lends the books to the workers, and then does what they left of the layer, book by book. The `bool` is `false` if the
// limit is passed. `None` if other books came back. Fails only if out of memory.
fn work_through<R: Threads + Wait + Sync, G: Gate + Sync>(
    rt: &R,
    settings: &Settings<'_, G>,
    mut books: Vec<Book>,
    layer: &Layer,
    state: &mut SearchState<'_>,
) -> Result<Option<(bool, Vec<Book>)>, AllocError>
    requires limits { IsWithinLimits settings.now.config }
    requires state { IsStateOf settings.now.config state.old }
    requires level { layer.now.level ≡ state.old.search.problem }
    requires examined { IsExamined state.old.search layer.now }
    requires may { (i : ℕ) (v : BookView) → slice_get books.items i ≡ Some v → MayBegin v layer.now }
    ensures worked { IfOk result (λ back. IfSome back
        (λ b. AreWorkedBy settings.now.config state.old.search layer.now b.0 b.1.items)) }
    ensures same { (state.new.search ≡ state.old.search) × (state.new.desks ≡ state.old.desks) }
{
    begin_each(books.as_mut_slice(), layer)?;
    let positions = state.search.positions().saturating_add(layer.len());
    let back = lend(rt, settings, books, layer, &mut state.desks, positions)?;
    finish_lent(rt, settings.config, back, layer, &mut state.search)
}

// Does what is left of a layer in the books that came back, book by book. The `bool` is `false` if the limit is passed.
// `None` exactly if they are other books than those lent. Fails only if out of memory, and never with other books.
fn finish_lent<R: Threads + Sync>(
    rt: &R,
    config: Config,
    mut back: Vec<Book>,
    layer: &Layer,
    search: &mut Search<'_>,
) -> Result<Option<(bool, Vec<Book>)>, AllocError>
    requires limits { IsWithinLimits config }
    requires level { layer.now.level ≡ search.old.problem }
    requires limit { search.old.limit ≡ config.limit }
    ensures others { ¬ (ComeBack config layer.now back.items) → result ≡ Ok None }
    ensures own { ComeBack config layer.now back.items → IfOk result IsSome }
    ensures worked { IfOk result
        (λ back. IfSome back (λ b. AreWorkedBy config search.old layer.now b.0 b.1.items)) }
    ensures same { search.new ≡ search.old }
{
    if !come_back(back.as_slice(), config, layer) {
        return Ok(None);
    }
    let within = finish_all(rt, config, back.as_mut_slice(), layer, search)?;
    Ok(Some((within, back)))
}
