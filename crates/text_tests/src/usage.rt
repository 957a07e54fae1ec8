//! Lines that are none: the least number of words with which no valid line begins, or where all words begin one, their
//! count and one.
use crate::lines::check_rows;
use std::test::Fail;

const COMMANDS: &str = r#"
-> usage 1
"" -> usage 1
- -> usage 1
-- -> usage 1
p -> usage 1
Check p -> usage 1
chec p -> usage 1
checks p -> usage 1
check=p -> usage 1
-- check p -> usage 1
--json check p -> usage 1
loads 5 -> usage 1
predicts r t -> usage 1
explains p -> usage 1
Explain p -> usage 1
Predict r t -> usage 1
pairs p --with q -> usage 1
Pair p --with q -> usage 1
twic p -> usage 1
Twice p -> usage 1
Run p --scenario install --tree t -> usage 1
Translate f -> usage 1
translates f -> usage 1
"#;

#[test]
fn wrong_commands(rt: HostRuntime) -> Result<(), Fail> {
    check_rows(&rt, COMMANDS, 23)
}

const NAMES: &str = r#"
check -> usage 2
check -p -> usage 2
check -json p -> usage 2
check --x p -> usage 2
check --- p -> usage 2
check --= p -> usage 2
check --=x p -> usage 2
check -= p -> usage 2
check -a=b p -> usage 2
check --ol o p -> usage 2
check --older o p -> usage 2
check --OLD=o p -> usage 2
check -old o p -> usage 2
check p -x -> usage 3
check -- -> usage 3
check p q -> usage 3
check p - -> usage 3
check p "" -> usage 3
check p -- q -> usage 4
check p -- -q -> usage 4
check -- p q -> usage 4
check -- p -- -> usage 4
check p -- -- -> usage 4
check -- -- -> usage 3
check -- -- p -> usage 3
check -- p --json -> usage 4
check -- p --old o -> usage 4
check --json x y -> usage 4
"#;

#[test]
fn wrong_names(rt: HostRuntime) -> Result<(), Fail> {
    check_rows(&rt, NAMES, 28)
}

const OPTIONS: &str = r#"
check --json -> usage 3
check p --json --brief -> usage 4
check --brief --json p -> usage 3
check --json --json p -> usage 3
check p --brief --brief -> usage 4
check p --json= -> usage 3
check p --json=x -> usage 3
check p --brief=1 -> usage 3
check --old -> usage 3
check --old o -> usage 4
check --old=o -> usage 3
check --old o -- -> usage 5
check p --old -> usage 4
check p --old --base b -> usage 4
check p --old -x -> usage 4
check p --old -- -> usage 4
check p --old --old -> usage 4
check p --old --old=o -> usage 4
check p --old o --old o -> usage 5
check p --old=o --old=o -> usage 4
check p --old o --old=o -> usage 5
check p --old=o --old o -> usage 4
check --old= --old= p -> usage 3
check p --base b --base c -> usage 5
check p --base= --base= -> usage 4
check p --base --json -> usage 4
check p --tree t -> usage 3
check --tree=t p -> usage 2
"#;

#[test]
fn wrong_options(rt: HostRuntime) -> Result<(), Fail> {
    check_rows(&rt, OPTIONS, 28)
}

const VALUES: &str = r#"
check p --scenario -> usage 4
check p --scenario= -> usage 3
check p --scenario nope -> usage 4
check p --scenario Install -> usage 4
check p --scenario install- -> usage 4
check p --scenario=install-agai -> usage 3
check p --scenario=purge-late -> usage 3
check p --scenario - -> usage 4
check p --scenario "" -> usage 4
check p --scenario --json -> usage 4
check p --scenario purge --scenario purge -> usage 5
check p --scenario install upgrade -> usage 5
check p --turns 0 -> usage 4
check p --turns=0 -> usage 3
check p --turns 000000 -> usage 4
check p --turns 10001 -> usage 4
check p --turns=10001 -> usage 3
check p --turns 0000001 -> usage 4
check p --turns 1000000 -> usage 4
check p --turns "" -> usage 4
check p --turns= -> usage 3
check p --turns - -> usage 4
check p --turns -1 -> usage 4
check p --turns=-1 -> usage 3
check p --turns +5 -> usage 4
check p --turns=+5 -> usage 3
check p --turns 5x -> usage 4
check p --turns x5 -> usage 4
check p --turns 1.0 -> usage 4
check p --turns ٣ -> usage 4
check p --turns / -> usage 4
check p --turns : -> usage 4
check p --turns 5 --turns 5 -> usage 5
check --turns 5 -> usage 4
check p --limit 0 -> usage 4
check p --limit 100001 -> usage 4
check p --limit=100001 -> usage 3
check p --limit 999999 -> usage 4
check p --limit 18446744073709551617 -> usage 4
check p --limit= -> usage 3
check p --limit 5 --limit=5 -> usage 5
"#;

#[test]
fn wrong_values(rt: HostRuntime) -> Result<(), Fail> {
    check_rows(&rt, VALUES, 41)
}

const RUNS: &str = r#"
run -> usage 2
run p -> usage 3
run -p -> usage 2
run p --tree t -> usage 5
run p --tree -> usage 4
run p --scenario install -> usage 5
run p --scenario install --tree -> usage 6
run --scenario install --tree t -> usage 6
run --scenario install --tree t -- -> usage 7
run p -- -> usage 3
run -- -> usage 2
run -- p -> usage 2
run p --scenario install -- -> usage 5
run p --tree t -- -> usage 5
run --tree=t -- p -> usage 3
run p --limit=5 -> usage 3
run p --limit 5 -> usage 3
run p --json -> usage 3
run --brief p -> usage 2
run p --scenario install --tree t --limit 5 -> usage 7
run p --scenario install --tree t --json -> usage 7
run p --scenario install --tree t q -> usage 7
run p --scenario install --tree t -- q -> usage 8
run p --scenario install --tree t -- -- -> usage 8
run p q --tree t -> usage 3
run p --tree t --tree u -> usage 5
run p --tree=t --tree=t -> usage 4
run p --scenario install --scenario install -> usage 5
run p --scenario=x --tree t -> usage 3
run p --scenario install --tree --turns 5 -> usage 6
run p --scenario install --tree t --turns 0 -> usage 8
run p --scenario install --tree t --turns=10001 -> usage 7
"#;

#[test]
fn wrong_runs(rt: HostRuntime) -> Result<(), Fail> {
    check_rows(&rt, RUNS, 32)
}

const TRANSLATIONS: &str = r#"
translate -> usage 2
translate -- -> usage 3
translate f g -> usage 3
translate -f -> usage 2
translate f --turns 5 -> usage 3
translate f --scenario -> usage 3
translate f --old=o -> usage 3
translate --json f -> usage 2
translate --tree t -> usage 2
translate --limit=5 f -> usage 2
translate f -- g -> usage 4
translate -- f g -> usage 4
translate -- f -- -> usage 4
translate f -- -- -> usage 4
translate -- -- -> usage 3
"#;

#[test]
fn wrong_translations(rt: HostRuntime) -> Result<(), Fail> {
    check_rows(&rt, TRANSLATIONS, 15)
}

const PREDICTIONS: &str = r#"
predict -> usage 2
predict r -> usage 3
predict r t u -> usage 4
predict r t "" -> usage 4
predict -r -> usage 2
predict -r t -> usage 2
predict r -t -> usage 3
predict --json -> usage 2
predict --json r t -> usage 2
predict r --json t -> usage 3
predict r t --json -> usage 4
predict r t --brief -> usage 4
predict r --turns 5 t -> usage 3
predict r t --turns=5 -> usage 4
predict r t --limit 5 -> usage 4
predict --old=o r t -> usage 2
predict r t --base b -> usage 4
predict r t --scenario install -> usage 4
predict r --tree t -> usage 3
predict r t --tree=t -> usage 4
predict -- -> usage 3
predict r -- -> usage 4
predict -- r -> usage 4
predict -- -- -> usage 3
predict r -- -- -> usage 4
predict r t -- -- -> usage 5
predict r t -- u -> usage 5
predict r -- t u -> usage 5
predict -- r t u -> usage 5
predict -- r t -- -> usage 5
predict r t u v -> usage 4
"#;

#[test]
fn wrong_predictions(rt: HostRuntime) -> Result<(), Fail> {
    check_rows(&rt, PREDICTIONS, 31)
}

const EXPLANATIONS: &str = r#"
explain -> usage 2
explain --places -> usage 3
explain --explain p -> usage 2
explain p q -> usage 3
explain p --places --places -> usage 4
explain --places p --places -> usage 4
explain p --places= -> usage 3
explain p --place -> usage 3
explain p --json -> usage 3
explain --brief p -> usage 2
explain --places --json p -> usage 3
explain --places --html p -> usage 3
explain p --html --places -> usage 4
explain p --html --html -> usage 4
explain p --html= -> usage 3
explain --html p --outcome 1 -> usage 4
explain p --outcome 1 --html -> usage 5
check p --html -> usage 3
explain p --tree t -> usage 3
explain --tree=t p -> usage 2
explain p --old o --old=o -> usage 5
explain p --base --places -> usage 4
explain p --scenario nope -> usage 4
explain p --scenario -> usage 4
explain p --turns 0 -> usage 4
explain p --limit=100001 -> usage 3
explain -- -> usage 3
explain p -- q -> usage 4
explain -- p --places -> usage 4
check --places p -> usage 2
check p --places -> usage 3
run p --places -> usage 3
translate f --places -> usage 3
load 5 --places -> usage 3
predict r t --places -> usage 4
explain p --outcome -> usage 4
explain p --outcome= -> usage 3
explain p --outcome 0 -> usage 4
explain p --outcome 100001 -> usage 4
explain p --outcome=1000000 -> usage 3
explain p --outcome one -> usage 4
explain p --outcome --places -> usage 4
explain p --outcome=--places -> usage 3
explain p --outcome 1 --outcome 2 -> usage 5
explain p --outcome 1 --places -> usage 5
explain --places p --outcome -> usage 4
explain --places --outcome=1 p -> usage 3
check p --outcome 1 -> usage 3
check --outcome=1 p -> usage 2
run p --outcome=1 -> usage 3
load 5 --outcome 1 -> usage 3
pair p --outcome=1 -> usage 3
twice p --outcome 1 -> usage 3
"#;

#[test]
fn wrong_explanations(rt: HostRuntime) -> Result<(), Fail> {
    check_rows(&rt, EXPLANATIONS, 53)
}

const PAIRS: &str = r#"
pair -> usage 2
pair p -> usage 3
pair p q -> usage 3
pair p --with q -> usage 5
pair p --with=q -> usage 4
pair p --scenario in-favour -> usage 5
pair --with q --scenario in-favour -> usage 6
pair p --with -> usage 4
pair p --with --scenario -> usage 4
pair p --with q --scenario -> usage 6
pair p --with q --scenario install -> usage 6
pair p --with q --scenario=purge-later -> usage 5
pair p --with q --scenario twice -> usage 6
pair p --with q --scenario In-favour -> usage 6
pair p --with q --scenario=in-favor -> usage 5
pair p --with q --scenario= -> usage 5
pair p --with q --with q -> usage 5
pair p --with=q --with=q -> usage 4
pair p --with q --old o -> usage 5
pair --old=o p --with q -> usage 2
pair p --with q --tree t -> usage 5
pair p --with q --scenario in-favour --json -> usage 7
pair --brief p --with q -> usage 2
pair p --places -> usage 3
pair p --turns 0 -> usage 4
pair p --limit=100001 -> usage 3
pair p --base b --base=b -> usage 5
pair p -- -> usage 3
pair -- p -> usage 2
pair --with q -- p -> usage 4
pair p --scenario=disappear -- -> usage 4
pair --with=q --scenario=disappear -- -> usage 5
pair --with=q --scenario=disappear -- p q -> usage 6
pair p --with=q --scenario=disappear -- q -> usage 6
check p --with q -> usage 3
check --with=q p -> usage 2
check p --scenario in-favour -> usage 4
check p --scenario=twice -> usage 3
run p --with=q -> usage 3
run p --scenario disappear -> usage 4
explain p --with q -> usage 3
explain p --scenario=deconfigure -> usage 3
translate f --with q -> usage 3
load 5 --with=q -> usage 3
predict r t --with q -> usage 4
pair -- -> usage 2
pair p --with q -- -> usage 5
pair --with q --scenario disappear -- p q -> usage 8
run p --scenario in-favour --tree t -> usage 4
twice -> usage 2
twice p q -> usage 3
twice -p -> usage 2
twice p --old o -> usage 3
twice p --scenario twice -> usage 3
twice --scenario=install p -> usage 2
twice p --tree=t -> usage 3
twice p --with q -> usage 3
twice p --json -> usage 3
twice --brief p -> usage 2
twice p --places -> usage 3
twice p --turns 0 -> usage 4
twice p --turns=10001 -> usage 3
twice p --limit 100001 -> usage 4
twice p --base -> usage 4
twice --base b -> usage 4
twice p --base b --base=b -> usage 5
twice -- -> usage 3
twice p -- q -> usage 4
twice -- p --base -> usage 4
twice p -- -- -> usage 4
pair --scenario disappear -- -> usage 4
pair p --with q --scenario=In-Favour -> usage 5
pair p --with --scenario disappear -> usage 4
pair p --old o -> usage 3
pair p --tree t -> usage 3
pair p --json -> usage 3
pair --brief p -> usage 2
pair p --with q --scenario disappear --limit 0 -> usage 8
check p --scenario disappear -> usage 4
twice p --old=o -> usage 3
twice --json p -> usage 2
"#;

#[test]
fn wrong_pairs(rt: HostRuntime) -> Result<(), Fail> {
    check_rows(&rt, PAIRS, 81)
}

const LOADS: &str = r#"
load -> usage 2
load 0 -> usage 2
load 000 -> usage 2
load 501 -> usage 2
load 000501 -> usage 2
load 0000005 -> usage 2
load x -> usage 2
load "" -> usage 2
load - -> usage 2
load -5 -> usage 2
load +5 -> usage 2
load 5x -> usage 2
load 5 6 -> usage 3
load 5 5 -> usage 3
load 5 x -> usage 3
load 5 -- 6 -> usage 4
load -- -> usage 3
load -- 0 -> usage 3
load -- -5 -> usage 3
load -- 5 6 -> usage 4
load -- 5 -- -> usage 4
load -- 5 --limit=3 -> usage 4
load 5 --turns 3 -> usage 3
load 5 --turns=3 -> usage 3
load --scenario=install 5 -> usage 2
load 5 --old o -> usage 3
load --base=b 5 -> usage 2
load 5 --tree t -> usage 3
load 5 --json -> usage 3
load --brief 5 -> usage 2
load --limit -> usage 3
load 5 --limit -> usage 4
load --limit 5 -> usage 4
load 5 --limit 0 -> usage 4
load 5 --limit=100001 -> usage 3
load --limit x 5 -> usage 3
load 5 --limit 3 --limit 3 -> usage 5
load --limit=3 501 -> usage 3
load --limit 3 5 6 -> usage 5
"#;

#[test]
fn wrong_loads(rt: HostRuntime) -> Result<(), Fail> {
    check_rows(&rt, LOADS, 39)
}
