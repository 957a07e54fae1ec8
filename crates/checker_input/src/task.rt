use crate::package::Packages;
use crate::sources::Sources;
use command_words::{Layout, View};
use dpkg_scenarios::Scenario;
use feature_trees::Value;
use shell_forms::Accepted;

/// What a request asks for, with what its files hold.
#[derive(Drop)]
pub enum Task {
    /// The report on packages, in one scenario or in all six, in a layout; `turns` is how many turns of loops a run
    /// has, `limit` how many outcomes a scenario may have.
    Check {
        packages: Packages,
        scenario: Option<Scenario>,
        turns: u32,
        limit: u32,
        layout: Layout,
    },
    /// The run of a scenario of packages from a tree.
    Run {
        packages: Packages,
        tree: Value,
        scenario: Scenario,
        turns: u32,
    },
    /// The program of a script.
    Translate {
        script: Accepted,
    },
    /// The endings of the made package of this number, which is in no file.
    Load {
        number: u32,
        limit: u32,
    },
    /// The report on a pair of packages in one of its scenarios, or on a package that is configured twice; `turns` is
    /// how many turns of loops a run has, `limit` how many outcomes the scenario may have.
    Pair {
        packages: Packages,
        scenario: Scenario,
        turns: u32,
        limit: u32,
    },
    /// What there is to say of packages to people, in one scenario or in all six, in a view; `turns` and `limit` are
    /// those of a check.
    Explain {
        packages: Packages,
        sources: Sources,
        scenario: Option<Scenario>,
        turns: u32,
        limit: u32,
        view: View,
    },
}
