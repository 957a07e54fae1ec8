// What the words of a command line ask for.
ghost use Rattle.std.specs.Prelude.{◌≡◌, IfOk};
ghost use Rattle.command_words.specs.declared.request.Request.TheVariants.{Check, Run, Translate, Predict, Explain};
ghost use Rattle.command_words.specs.declared.request.Request.TheVariants.{Pair, Twice};

use dpkg_scenarios::Scenario;
use script_names::{Copied, Memory, Text};
use std::alloc::Global;

/// The folders of the packages, and the file that says what is known of the system. Without an old folder the old
/// package is the new one; without a base it is the usual one.
#[derive(Drop)]
pub struct Folders {
    pub dir: Text,
    pub old: Option<Text>,
    pub base: Option<Text>,
}

impl Copied for Folders {
    fn copy(&self, alloc: Global) -> Result<Folders, Memory> {
        let dir = self.dir.copy(alloc)?;
        let old = self.old.copy(alloc)?;
        let base = self.base.copy(alloc)?;
        Ok(Folders { dir, old, base })
    }
}

/// How a report is written.
#[derive(Clone, Copy, Debug, PartialEq, Eq)]
pub enum Layout {
    /// Whole, for people.
    Plain,
    /// Endings and traces alone.
    Brief,
    /// Whole, as JSON (RFC 8259).
    Json,
}

impl Copied for Layout {
    fn copy(&self, _alloc: Global) -> Result<Layout, Memory> {
        Ok(*self)
    }
}

/// How an explanation is written.
#[derive(Clone, Copy, Debug, PartialEq, Eq)]
pub enum View {
    /// The whole text.
    Text,
    /// A line for each place alone, for editors.
    Places,
    /// A page for a browser (HTML Standard).
    Html,
    /// One outcome whole, by its number in the report on its scenario; the first has the number 1.
    Outcome { number: u32 },
}

impl Copied for View {
    fn copy(&self, _alloc: Global) -> Result<View, Memory> {
        Ok(*self)
    }
}

/// What the words of a command line ask for.
#[derive(Drop)]
pub enum Request {
    /// The report on a package, in one scenario or in all six; `turns` is how many turns of loops a run has, `limit`
    /// how many outcomes a scenario may have.
    Check {
        folders: Folders,
        scenario: Option<Scenario>,
        turns: u32,
        limit: u32,
        layout: Layout,
    },
    /// The run of a scenario from the tree in a file.
    Run {
        folders: Folders,
        tree: Text,
        scenario: Scenario,
        turns: u32,
    },
    /// The program of the script in a file.
    Translate {
        file: Text,
    },
    /// The endings of the made package of this number, from 1 to `MOST_LOAD`; `limit` is how many outcomes a scenario
    /// may have.
    Load {
        number: u32,
        limit: u32,
    },
    /// The outcome of each tree in a file, by the report in a file.
    Predict {
        report: Text,
        trees: Text,
    },
    /// What there is to say of a package to people, of one scenario or of all six, in a view; `turns` and `limit` are
    /// those of a check.
    Explain {
        folders: Folders,
        scenario: Option<Scenario>,
        turns: u32,
        limit: u32,
        view: View,
    },
    /// The report on a package and an installed one of another name, in a scenario of the two; `turns` is how many turns
    /// of loops a run has, `limit` how many outcomes the scenario may have.
    Pair {
        dir: Text,
        other: Text,
        base: Option<Text>,
        scenario: Scenario,
        turns: u32,
        limit: u32,
    },
    /// The report on a package that is configured twice.
    Twice {
        dir: Text,
        base: Option<Text>,
        turns: u32,
        limit: u32,
    },
}

impl Copied for Request {
    fn copy(&self, alloc: Global) -> Result<Request, Memory> {
        match self {
            Request::Check {
                folders,
                scenario,
                turns,
                limit,
                layout,
            } => check_copy(alloc, folders, *scenario, *turns, *limit, *layout),
            Request::Run {
                folders,
                tree,
                scenario,
                turns,
            } => run_copy(alloc, folders, tree, *scenario, *turns),
            Request::Translate { file } => translate_copy(alloc, file),
            Request::Load { number, limit } => Ok(Request::Load {
                number: *number,
                limit: *limit,
            }),
            Request::Predict { report, trees } => predict_copy(alloc, report, trees),
            Request::Explain {
                folders,
                scenario,
                turns,
                limit,
                view,
            } => explain_copy(alloc, folders, *scenario, *turns, *limit, *view),
            Request::Pair {
                dir,
                other,
                base,
                scenario,
                turns,
                limit,
            } => pair_copy(alloc, dir, other, base, *scenario, *turns, *limit),
            Request::Twice {
                dir,
                base,
                turns,
                limit,
            } => twice_copy(alloc, dir, base, *turns, *limit),
        }
    }
}

// A request for a check, of copies of these.
fn check_copy(
    alloc: Global,
    folders: &Folders,
    scenario: Option<Scenario>,
    turns: u32,
    limit: u32,
    layout: Layout,
) -> Result<Request, Memory>
    ensures { IfOk result (λ copy. copy ≡ Check folders.now scenario turns limit layout) }
{
    let folders = folders.copy(alloc)?;
    Ok(Request::Check {
        folders,
        scenario,
        turns,
        limit,
        layout,
    })
}

// A request for a run, of copies of these.
fn run_copy(
    alloc: Global,
    folders: &Folders,
    tree: &Text,
    scenario: Scenario,
    turns: u32,
) -> Result<Request, Memory>
    ensures { IfOk result (λ copy. copy ≡ Run folders.now tree.now scenario turns) }
{
    let folders = folders.copy(alloc)?;
    let tree = tree.copy(alloc)?;
    Ok(Request::Run {
        folders,
        tree,
        scenario,
        turns,
    })
}

// A request for a translation, of a copy of this.
fn translate_copy(alloc: Global, file: &Text) -> Result<Request, Memory>
    ensures { IfOk result (λ copy. copy ≡ Translate file.now) }
{
    let file = file.copy(alloc)?;
    Ok(Request::Translate { file })
}

// A request for a prediction, of copies of these.
fn predict_copy(alloc: Global, report: &Text, trees: &Text) -> Result<Request, Memory>
    ensures { IfOk result (λ copy. copy ≡ Predict report.now trees.now) }
{
    let report = report.copy(alloc)?;
    let trees = trees.copy(alloc)?;
    Ok(Request::Predict { report, trees })
}

// A request for an explanation, of copies of these.
fn explain_copy(
    alloc: Global,
    folders: &Folders,
    scenario: Option<Scenario>,
    turns: u32,
    limit: u32,
    view: View,
) -> Result<Request, Memory>
    ensures { IfOk result (λ copy. copy ≡ Explain folders.now scenario turns limit view) }
{
    let folders = folders.copy(alloc)?;
    Ok(Request::Explain {
        folders,
        scenario,
        turns,
        limit,
        view,
    })
}

// A request for a check of a package against another, of copies of these.
fn pair_copy(
    alloc: Global,
    dir: &Text,
    other: &Text,
    base: &Option<Text>,
    scenario: Scenario,
    turns: u32,
    limit: u32,
) -> Result<Request, Memory>
    ensures { IfOk result (λ copy. copy ≡ Pair dir.now other.now base.now scenario turns limit) }
{
    let dir = dir.copy(alloc)?;
    let other = other.copy(alloc)?;
    let base = base.copy(alloc)?;
    Ok(Request::Pair {
        dir,
        other,
        base,
        scenario,
        turns,
        limit,
    })
}

// A request for a check that a package can be configured twice, of copies of these.
fn twice_copy(
    alloc: Global,
    dir: &Text,
    base: &Option<Text>,
    turns: u32,
    limit: u32,
) -> Result<Request, Memory>
    ensures { IfOk result (λ copy. copy ≡ Twice dir.now base.now turns limit) }
{
    let dir = dir.copy(alloc)?;
    let base = base.copy(alloc)?;
    Ok(Request::Twice {
        dir,
        base,
        turns,
        limit,
    })
}
