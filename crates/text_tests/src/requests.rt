//! Lines that spell a request. A check is shown with its folder, turns, limit and layout; a run with its folder,
//! scenario, tree and turns; a load with its number and limit; a prediction with its report and trees; an explanation as a
//! check, plain, by places alone or of one outcome; a pair with its folders, scenario, turns and limit; what is configured twice with its
//! folder, turns and limit.
use crate::lines::check_rows;
use std::test::Fail;

// The folder, and how the report is written.
const PLAIN: &str = r#"
check p -> check p 100 10000 plain
check - -> check - 100 10000 plain
check "" -> check "" 100 10000 plain
check check -> check check 100 10000 plain
check /a/b/ -> check /a/b/ 100 10000 plain
check a=b -> check a=b 100 10000 plain
check = -> check = 100 10000 plain
check p-- -> check p-- 100 10000 plain
check -- p -> check p 100 10000 plain
check p -- -> check p 100 10000 plain
check -- -p -> check -p 100 10000 plain
check -- --json -> check --json 100 10000 plain
check -- --turns=0 -> check --turns=0 100 10000 plain
check -- - -> check - 100 10000 plain
check -- "" -> check "" 100 10000 plain
check --json p -> check p 100 10000 json
check p --json -> check p 100 10000 json
check --brief p -> check p 100 10000 brief
check p --brief -> check p 100 10000 brief
check --json -- p -> check p 100 10000 json
check --brief -- --json -> check --json 100 10000 brief
check p --brief -- -> check p 100 10000 brief
"#;

#[test]
fn plain_checks(rt: HostRuntime) -> Result<(), Fail> {
    check_rows(&rt, PLAIN, 22)
}

const FOLDERS: &str = r#"
check p --old o -> check p 100 10000 plain old=o
check --old o p -> check p 100 10000 plain old=o
check --old=o p -> check p 100 10000 plain old=o
check p --old=o -> check p 100 10000 plain old=o
check --old - p -> check p 100 10000 plain old=-
check --old=- p -> check p 100 10000 plain old=-
check --old=-x p -> check p 100 10000 plain old=-x
check --old=--json p -> check p 100 10000 plain old=--json
check --old=-- p -> check p 100 10000 plain old=--
check --old= p -> check p 100 10000 plain old=""
check --old "" p -> check p 100 10000 plain old=""
check --old=a=b p -> check p 100 10000 plain old=a=b
check --old == p -> check p 100 10000 plain old===
check --old p p -> check p 100 10000 plain old=p
check --old o -- --old -> check --old 100 10000 plain old=o
check --base b p -> check p 100 10000 plain base=b
check p --base=b -> check p 100 10000 plain base=b
check --base= p -> check p 100 10000 plain base=""
check --base - p -> check p 100 10000 plain base=-
check --base=-b p -> check p 100 10000 plain base=-b
check --old o --base b p -> check p 100 10000 plain old=o base=b
check --base b p --old=o -> check p 100 10000 plain old=o base=b
check p --scenario install -> check p 100 10000 plain scenario=install
check p --scenario install-again -> check p 100 10000 plain scenario=install-again
check p --scenario upgrade -> check p 100 10000 plain scenario=upgrade
check p --scenario remove -> check p 100 10000 plain scenario=remove
check p --scenario purge -> check p 100 10000 plain scenario=purge
check p --scenario purge-later -> check p 100 10000 plain scenario=purge-later
check --scenario=install-again p -> check p 100 10000 plain scenario=install-again
check --scenario=purge-later p -> check p 100 10000 plain scenario=purge-later
check --scenario install install -> check install 100 10000 plain scenario=install
"#;

#[test]
fn folders_and_scenarios(rt: HostRuntime) -> Result<(), Fail> {
    check_rows(&rt, FOLDERS, 31)
}

const NUMBERS: &str = r#"
check p --turns 1 -> check p 1 10000 plain
check p --turns 10000 -> check p 10000 10000 plain
check p --turns 010000 -> check p 10000 10000 plain
check p --turns 9999 -> check p 9999 10000 plain
check p --turns 000001 -> check p 1 10000 plain
check p --turns 07 -> check p 7 10000 plain
check p --turns 007 -> check p 7 10000 plain
check p --turns=1 -> check p 1 10000 plain
check p --turns=10000 -> check p 10000 10000 plain
check --turns 12 p -> check p 12 10000 plain
check --turns 5 5 -> check 5 5 10000 plain
check p --limit 1 -> check p 100 1 plain
check p --limit 100000 -> check p 100 100000 plain
check p --limit 099999 -> check p 100 99999 plain
check p --limit=100000 -> check p 100 100000 plain
check --limit=000010 p -> check p 100 10 plain
check --turns 3 --limit 4 p -> check p 3 4 plain
check --limit 4 --turns 3 p -> check p 3 4 plain
check --old o --base b --scenario upgrade --turns 5 --limit 6 --json p -> check p 5 6 json old=o base=b scenario=upgrade
check --brief p --limit=6 --turns=5 --scenario=purge --base=b --old=o -- -> check p 5 6 brief old=o base=b scenario=purge
"#;

#[test]
fn numbers_are_read(rt: HostRuntime) -> Result<(), Fail> {
    check_rows(&rt, NUMBERS, 20)
}

const RUNS: &str = r#"
run p --scenario install --tree t -> run p install t 100
run --scenario install --tree t p -> run p install t 100
run --scenario=install --tree=t p -> run p install t 100
run --tree t p --scenario install-again -> run p install-again t 100
run p --tree t --scenario purge-later -> run p purge-later t 100
run --tree= --scenario=remove p -> run p remove "" 100
run --tree - --scenario remove - -> run - remove - 100
run --tree=-t --scenario=purge p -> run p purge -t 100
run "" --scenario install --tree "" -> run "" install "" 100
run p --scenario install --tree t -- -> run p install t 100
run --scenario install --tree t -- p -> run p install t 100
run --scenario install --tree t -- -p -> run -p install t 100
run --scenario install --tree t -- --tree -> run --tree install t 100
run p --scenario upgrade --tree t --old o --base b --turns 7 -> run p upgrade t 7 old=o base=b
run --turns=10000 --old=o --scenario upgrade --tree t p -> run p upgrade t 10000 old=o
run --base= p --scenario purge --tree t -> run p purge t 100 base=""
"#;

#[test]
fn runs_are_read(rt: HostRuntime) -> Result<(), Fail> {
    check_rows(&rt, RUNS, 16)
}

const TRANSLATIONS: &str = r#"
translate f -> translate f
translate - -> translate -
translate "" -> translate ""
translate f=g -> translate f=g
translate translate -> translate translate
translate -- f -> translate f
translate f -- -> translate f
translate -- -f -> translate -f
translate -- --turns -> translate --turns
"#;

#[test]
fn translations_are_read(rt: HostRuntime) -> Result<(), Fail> {
    check_rows(&rt, TRANSLATIONS, 9)
}

const PREDICTIONS: &str = r#"
predict r t -> predict r t
predict - - -> predict - -
predict "" "" -> predict "" ""
predict r r -> predict r r
predict predict check -> predict predict check
predict r=s t=u -> predict r=s t=u
predict r t -- -> predict r t
predict r -- t -> predict r t
predict -- r t -> predict r t
predict -- -r --trees -> predict -r --trees
predict r -- --json -> predict r --json
predict -- "" - -> predict "" -
"#;

#[test]
fn predictions_are_read(rt: HostRuntime) -> Result<(), Fail> {
    check_rows(&rt, PREDICTIONS, 12)
}

const EXPLANATIONS: &str = r#"
explain p -> explain p 100 10000 plain
explain - -> explain - 100 10000 plain
explain explain -> explain explain 100 10000 plain
explain p --places -> explain p 100 10000 places
explain --places p -> explain p 100 10000 places
explain --places -- -p -> explain -p 100 10000 places
explain -- --places -> explain --places 100 10000 plain
explain p --html -> explain p 100 10000 html
explain --html --scenario=purge p -> explain p 100 10000 html scenario=purge
explain -- --html -> explain --html 100 10000 plain
explain p --scenario install -> explain p 100 10000 plain scenario=install
explain p --places --scenario=purge-later -> explain p 100 10000 places scenario=purge-later
explain --turns=10000 p --limit 100000 -> explain p 10000 100000 plain
explain --old= --base b p -> explain p 100 10000 plain old="" base=b
explain --old o --base b --scenario upgrade --turns 5 --limit 6 --places p -> explain p 5 6 places old=o base=b scenario=upgrade
explain p --old o --base b --scenario purge --turns 7 --limit 3 -> explain p 7 3 plain old=o base=b scenario=purge
explain --scenario=install-again --places --limit=100000 p -> explain p 100 100000 places scenario=install-again
explain p --outcome 1 -> explain p 100 10000 outcome=1
explain --outcome=100000 p -> explain p 100 10000 outcome=100000
explain --outcome 007 --scenario install p -> explain p 100 10000 outcome=7 scenario=install
explain --turns 5 --outcome=8 --limit=6 -- --outcome -> explain --outcome 5 6 outcome=8
"#;

#[test]
fn explanations_are_read(rt: HostRuntime) -> Result<(), Fail> {
    check_rows(&rt, EXPLANATIONS, 21)
}

const PAIRS: &str = r#"
pair p --with q --scenario in-favour -> pair p q in-favour 100 10000
pair --with q --scenario deconfigure p -> pair p q deconfigure 100 10000
pair --scenario=disappear p --with=q -> pair p q disappear 100 10000
pair --with=q p --scenario=in-favour --base b -> pair p q in-favour 100 10000 base=b
pair p --scenario disappear --with q --turns 5 --limit=6 --base= -> pair p q disappear 5 6 base=""
pair - --with - --scenario in-favour -> pair - - in-favour 100 10000
pair "" --with= --scenario in-favour -> pair "" "" in-favour 100 10000
pair p --with=--scenario --scenario in-favour -> pair p --scenario in-favour 100 10000
pair p --with p --scenario deconfigure -> pair p p deconfigure 100 10000
pair pair --with twice --scenario deconfigure -- -> pair pair twice deconfigure 100 10000
pair --with q --scenario disappear -- -p -> pair -p q disappear 100 10000
pair --with q --scenario disappear -- --with -> pair --with q disappear 100 10000
twice p -> twice p 100 10000
twice - -> twice - 100 10000
twice twice -> twice twice 100 10000
twice p --base b -> twice p 100 10000 base=b
twice --base= p -> twice p 100 10000 base=""
twice --turns 5 p --limit=6 -> twice p 5 6
twice --limit 100000 --turns=10000 --base b p -> twice p 10000 100000 base=b
twice -- p -> twice p 100 10000
twice p -- -> twice p 100 10000
twice -- --base -> twice --base 100 10000
pair p --with=-q --scenario disappear -> pair p -q disappear 100 10000
pair --limit=9 --turns=7 --base= --scenario in-favour --with q p -- -> pair p q in-favour 7 9 base=""
twice "" -- -> twice "" 100 10000
pair --with=q --scenario=disappear p -> pair p q disappear 100 10000
pair p --with= --scenario in-favour -> pair p "" in-favour 100 10000
pair p --with - --scenario in-favour -> pair p - in-favour 100 10000
pair p --with q --scenario in-favour --base b --turns 7 --limit 9 -> pair p q in-favour 7 9 base=b
pair p --with p --scenario in-favour -> pair p p in-favour 100 10000
twice --turns 7 --limit=9 p -> twice p 7 9
"#;

#[test]
fn pairs_are_read(rt: HostRuntime) -> Result<(), Fail> {
    check_rows(&rt, PAIRS, 31)
}

const LOADS: &str = r#"
load 5 -> load 5 10000
load 1 -> load 1 10000
load 500 -> load 500 10000
load 007 -> load 7 10000
load 000500 -> load 500 10000
load 5 --limit 1 -> load 5 1
load 5 --limit=100000 -> load 5 100000
load --limit 3 5 -> load 5 3
load --limit=000030 5 -> load 5 30
load --limit 5 500 -> load 500 5
load -- 5 -> load 5 10000
load 5 -- -> load 5 10000
load --limit 7 -- 005 -> load 5 7
load 12 --limit=7 -- -> load 12 7
"#;

#[test]
fn loads_are_read(rt: HostRuntime) -> Result<(), Fail> {
    check_rows(&rt, LOADS, 14)
}
