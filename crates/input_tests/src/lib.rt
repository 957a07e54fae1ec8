//! Tests of what is read of packages: dpkg_scenarios, package_lists and system_base; checker_input, what a request
//! comes to over files in memory, and why it is refused; and load_maker, made packages. They stand apart from these
//! crates, so that none is proved twice.
#![tactic(auto)]

#[cfg(test)]
mod answers;
#[cfg(test)]
mod bases;
#[cfg(test)]
mod faults;
#[cfg(test)]
mod lists;
#[cfg(test)]
mod made;
#[cfg(test)]
mod refusals;
#[cfg(test)]
mod texts;
#[cfg(test)]
mod told_bases;
#[cfg(test)]
mod values;
#[cfg(test)]
mod walks;
