//! The judges of `best` of all levels, and of `prove` and `replay` of a folder.
ghost use denote.Param.Send.{IsSync};
ghost use Rattle.std.specs.Prelude.{◌≡◌, None, false};
ghost use Rattle.sokopar.specs.Judging.{IsJudgedOn};
ghost use Rattle.sokopar.specs.Levels.{IsJudgedFile, IsJudgedFrom};

use crate::folder::Folder;
use crate::given::{judge_given, stopped_by};
use crate::judge::Judge;
use crate::proving::LevelsRequest;
use crate::search::judge_board;
use crate::source::Source;
use crate::watch::Watch;
use grid::{Level, LevelFault};
use judging::Judgement;
use std::alloc::Global;
use std::thread::Threads;

/// Searches levels.
#[derive(Drop)]
pub(crate) struct Searcher {
    pub(crate) request: LevelsRequest,
}

impl Judge for Searcher {
    ghost is_right = { λ it n board judgement. IsJudgedOn false it.request.settings board None judgement };

    fn judge<R: Threads + Sync, P: Watch>(
        &self,
        rt: &R,
        alloc: Global,
        number: u32,
        board: &Result<Level, LevelFault>,
        watch: &mut P,
    ) -> Judgement {
        let LevelsRequest {
            workers,
            settings,
            ..
        } = self.request;
        watch.begin(number);
        judge_board(rt, alloc, board, workers, settings, watch)
    }
}

/// The judgement of the solution in a file.
#[tactic(auto, using(crate::proofs::Judged::of_file))]
fn judge_file<R: Threads + Sync, T: Source + Drop, P: Watch>(
    rt: &R,
    alloc: Global,
    number: u32,
    board: &Result<Level, LevelFault>,
    file: T,
    request: LevelsRequest,
    watch: &mut P,
) -> Judgement
    ensures { IsJudgedFile T.seen request.proves request.settings board.now file result }
{
    let LevelsRequest {
        proves,
        workers,
        settings,
        ..
    } = request;
    let mut file = file;
    watch.begin(number);
    let judged = judge_given(
        rt, alloc, board, proves, workers, settings, &mut file, watch,
    );
    match judged {
        Ok(judgement) => judgement,
        Err(fault) => stopped_by(fault),
    }
}

/// Proves the solutions of a folder, or only replays them.
#[derive(Drop)]
pub(crate) struct Prover<'f, D> {
    pub(crate) folder: &'f D,
    pub(crate) request: LevelsRequest,
}

impl<'f, D: Folder> Judge for Prover<'f, D> {
    ghost is_right = { λ it. IsJudgedFrom (D.opened it.folder.now) D.File.seen it.request.proves it.request.settings };

    #[tactic(auto, using(crate::proofs::Judged::of_opened))]
    fn judge<R: Threads + Sync, P: Watch>(
        &self,
        rt: &R,
        alloc: Global,
        number: u32,
        board: &Result<Level, LevelFault>,
        watch: &mut P,
    ) -> Judgement {
        match self.folder.open(number) {
            Ok(Some(file)) => judge_file(rt, alloc, number, board, file, self.request, watch),
            Ok(None) => Judgement::Missing,
            Err(fault) => stopped_by(fault),
        }
    }
}
