//! Tests of package_jobs: what is needed of the trees that a scenario may begin from, the acts of steps, and the runs
//! of jobs, with each step that succeeds and each that fails, with files that are put back, with stated calls, with
//! folders that hold no foreign entry, and along known links; and of reports (outcome_report, report_text, report_json
//! and report_reader). They stand apart from these crates, so that none is proved twice.
#![tactic(auto)]

#[cfg(test)]
mod along;
#[cfg(test)]
mod answers;
#[cfg(test)]
mod idioms;
#[cfg(test)]
mod json_readings;
#[cfg(test)]
mod json_texts;
#[cfg(test)]
mod json_versions;
#[cfg(test)]
mod linked;
#[cfg(test)]
mod made;
#[cfg(test)]
mod merged;
#[cfg(test)]
mod needs;
#[cfg(test)]
mod owned;
#[cfg(test)]
mod pairs;
#[cfg(test)]
mod placed;
#[cfg(test)]
mod plain;
#[cfg(test)]
mod put_back;
#[cfg(test)]
mod reports;
#[cfg(test)]
mod run_texts;
#[cfg(test)]
mod runs;
#[cfg(test)]
mod stated;
#[cfg(test)]
mod steps;
#[cfg(test)]
mod worked;
