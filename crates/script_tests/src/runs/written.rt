//! Programs as text, and what they come to from a given state, by hand from what each construct means in POSIX.1-2017,
//! XCU 2, and here.

// Rows of three lines: the state and the tree before; the definitions and the body of the program; the end, the trace,
// the state and the tree after. A state is the strict flag, the status of the last command, the turns that are left,
// what is captured so far (behind `>`), the arguments, and the variables with their values. In the first and the third
// line `%` is a newline.
pub const TABLES: &[&str] = &[STRINGS, FIELDS, COMMANDS, COMPOUNDS, STOPS];

// Calls under premises, which stand in a line before the three: which words are static, by literals in plain and quoted
// pieces alone.
pub const PREMISED: &str = r"call stop ok%
lax failure 9 | d /srv%
(call 5 (word (p =st) (q =op)) (word (s (var x))))
end success%trace 2:0:68%state lax success 9%after%d /srv%

call stop ok%
lax failure 9 | d /srv%
(call 5 (word (s =stop)))
end stopped call 3:5%trace 2:0:68%state lax failure 9%after%d /srv%

call stop ok%
lax failure 9 | d /srv%
(call 5 (word (p =st) (p (join =op))))
end stopped call 3:5%trace 2:0:68%state lax failure 9%after%d /srv%

call stop ok%
lax failure 9 x=stop | d /srv%
(call 5 (word (q (var x))))
end stopped call 3:5%trace 2:0:68%state lax failure 9 x=stop%after%d /srv%

call stop ok%
lax failure 9 | d /srv%
(call 5 (word (q (or (var x) stop))))
end stopped call 3:5%trace 2:0:68%state lax failure 9%after%d /srv%

call stop ok%
lax failure 9 | d /srv%
(call 5 (word (q (output (call 6 (word (p =echo)) (word (p =stop)))))))
end stopped call 3:5%trace 2:0:68%state lax failure 9%after%d /srv%

call stop ok%
lax failure 9 stop | d /srv%
(call 5 (args))
end stopped call 3:5%trace 2:0:68%state lax failure 9 stop%after%d /srv%

call stop ok%
lax failure 9 stop | d /srv%
(call 5 (word (q (arg 1))))
end stopped call 3:5%trace 2:0:68%state lax failure 9 stop%after%d /srv%

call f ok%
lax failure 9 | d /srv%
(def f (skip)) (call 5 (word (p =f)))
end success%trace 2:0:68%state lax success 9%after%d /srv%

call f ok%
lax failure 9 | d /srv%
(def f (skip)) (call 5 (word (s =f)))
end stopped call 3:5%trace 2:0:68%state lax failure 9%after%d /srv%

call command fails%
lax success 9 x=a | d /srv%
(call 5 (word (p =command)) (word (q =-) (p =V)) (word (q (var x))))
end failure%trace 2:0:68%state lax failure 9 x=a%after%d /srv%

call command ok%
lax failure 9 | d /srv%
(call 5 (word (p =command)) (word (s =-v)) (word (p =a)))
end stopped call 3:5%trace 2:0:68%state lax failure 9%after%d /srv%

call a asks /srv/b%
strict success 9 | d /srv%
(seq (call 5 (word (p =a))) (set 6 (x =c)))
end failure%trace 2:0:68 3:5:66%state strict failure 9%after%d /srv%

versions%
lax failure 9 | d /srv%
(call 5 (word (q =dpkg)) (word (s =--compare-versions)) (word (s =1\x20lt\x202)))
end success%trace 2:0:68%state lax success 9%after%d /srv%

versions%
lax failure 9 | d /srv%
(call 5 (word (s =dpkg)) (word (p =--compare-versions)) (word (p =1)) (word (p =lt)) (word (p =2)))
end stopped call 3:5%trace 2:0:68%state lax failure 9%after%d /srv%

runs%link /x srv%
lax failure 9 | d /srv%f /srv/a%l /x srv%
(call 5 (word (s =test)) (word (p =-x)) (word (s =/x/a)))
end success%trace 2:0:68 3:5:67%state lax success 9%after%d /srv%f /srv/a%l /x srv%";

// strings, in assignments
const STRINGS: &str = r"lax failure 9 | d /srv%
(set 5 (x =a\x20b) (y =\e))
end success%trace 2:0:68%state lax success 9 x=a\x20b y=\e%after%d /srv%

lax failure 9 x=a\x20b | d /srv%
(set 5 (y (var x)) (z (var w)))
end success%trace 2:0:68%state lax success 9 x=a\x20b y=a\x20b z=\e%after%d /srv%

lax failure 9 PATH=b | d /srv%
(set 5 (x =a) (y (var PATH)))
end stopped call 3:5%trace 2:0:68%state lax failure 9 x=a%after%d /srv%

lax failure 9 a b c d e f g h j k | d /srv%
(set 5 (x (count)) (y (arg 9)) (z (join (arg 1) =0)))
end success%trace 2:0:68%state lax success 9 a b c d e f g h j k x=10 y=j z=a0%after%d /srv%

lax failure 9 one \e | d /srv%
(set 5 (x (join (arg 1) =: (arg 2) =: (arg 3) =: (count))) (y (join)))
end success%trace 2:0:68%state lax success 9 one \e x=one:::2 y=\e%after%d /srv%

lax failure 9 x=a y=\e | d /srv%
(set 5 (x (or (var x) b)) (y (or (var y) c\x20d)) (z (or (or (var w) \e) e)))
end success%trace 2:0:68%state lax success 9 x=a y=c\x20d z=e%after%d /srv%

lax failure 9 x=a | d /srv%
(set 5 (x (or (var HOME) b)))
end stopped call 3:5%trace 2:0:68%state lax failure 9 x=a%after%d /srv%

lax failure 9 x=a | d /srv%
(set 5 (x (join =\x0a (output (seq (call 6 (word (p =echo)) (word (q =b\x20c))) (call 7 (word (p =echo))))) =\x0a)))
end success%trace 2:0:68%state lax success 9 x=\x0ab\x20c\x0a%after%d /srv%

lax success 9 touch x=a | d /srv%
(set 5 (y (output (seq (set 6 (x =b)) (strict) (call 7 (args) (word (p =/) (q (var x)))) (exit 8 (word (p =3)))))))
end failure%trace 2:0:68 3:7:67%state lax failure 9 touch x=a y=\e%after%f /b%d /srv%

lax failure 9 | d /srv%
(set 5 (x (output (call 6 (word (p =false))))) (y (output (skip))))
end success%trace 2:0:68%state lax success 9 x=\e y=\e%after%d /srv%

lax failure 9 | d /srv%
(set 5 (x (output (exit 6))))
end failure%trace 2:0:68%state lax failure 9 x=\e%after%d /srv%

lax failure 9 | d /srv%
(set 5 (x (output (for 6 i ((word (p =a)) (word (p =b))) (call 7 (word (p =echo)) (word (q (var i))))))))
end success%trace 2:0:68%state lax success 7 x=a\x0ab%after%d /srv%

lax failure 20 a a a a a a a a a a a a a a a a a x=b | d /srv%
(sub 3 (for 4 i ((args)) (set 5 (x (join (var x) (var x))))))
end stopped long 3:5%trace 2:0:68%state lax success 3 a a a a a a a a a a a a a a a a a x=b%after%d /srv%";

// the pieces and the fields of words: most rows put each field of a list in brackets
const FIELDS: &str = r"lax failure 9 y=b\x20c | d /srv%
(for 5 i ((word (p =a) (s (var y)) (q =d\x20e))) (set 6 (x (join (var x) =[ (var i) =]))))
end success%trace 2:0:68%state lax success 7 i=cd\x20e x=[ab][cd\x20e] y=b\x20c%after%d /srv%

lax failure 9 | d /srv%
(for 5 i ((word (q (join))) (word (s (join))) (word)) (set 6 (x (join (var x) =[ (var i) =]))))
end success%trace 2:0:68%state lax success 8 i=\e x=[]%after%d /srv%

lax failure 9 y=\x20b\x09\x0ac\x20 | d /srv%
(for 5 i ((word (p =a) (s (var y)) (p =d)) (word (p =e\x20f))) (set 6 (x (join (var x) =[ (var i) =]))))
end success%trace 2:0:68%state lax success 4 i=e\x20f x=[a][b][c][d][e\x20f] y=\x20b\x09\x0ac\x20%after%d /srv%

lax failure 9 one two\x20three \e | d /srv%
(for 5 i ((args) (word (p =z))) (set 6 (x (join (var x) =[ (var i) =]))))
end success%trace 2:0:68%state lax success 5 one two\x20three \e i=z x=[one][two\x20three][][z]%after%d /srv%

lax failure 9 | d /srv%
(for 5 i ((word (s =a\x20) (q =\e) (s =\x20b))) (set 6 (x (join (var x) =[ (var i) =]))))
end success%trace 2:0:68%state lax success 6 i=b x=[a][][b]%after%d /srv%

lax failure 9 echo a\x20\x20b | d /srv%
(for 5 i ((word (s (output (call 7 (args)))))) (set 6 (x (join (var x) =[ (var i) =]))))
end success%trace 2:0:68%state lax success 7 echo a\x20\x20b i=b x=[a][b]%after%d /srv%

lax failure 9 echo a\x20\x20b | d /srv%
(for 5 i ((word (q (output (call 7 (args)))))) (set 6 (x (join (var x) =[ (var i) =]))))
end success%trace 2:0:68%state lax success 8 echo a\x20\x20b i=a\x20\x20b x=[a\x20\x20b]%after%d /srv%

lax failure 9 one | d /srv%
(for 5 i ((word (s (count)) (q (arg 1)) (p (or (var z) -)))) (set 6 (x (join (var x) =[ (var i) =]))))
end success%trace 2:0:68%state lax success 8 one i=1one- x=[1one-]%after%d /srv%

lax failure 9 | d /srv%
(for 5 i ((word (q =[) (p =])) (word (p =]) (p =[)) (word (q =*))) (set 6 (x (join (var x) =[ (var i) =]))))
end success%trace 2:0:68%state lax success 6 i=* x=[[]][][][*]%after%d /srv%

lax failure 9 | d /srv%
(for 5 i ((word (q =*)) (word (s =a?))) (set 6 (x (join (var x) =[ (var i) =]))))
end stopped glob 3:5%trace 2:0:68%state lax failure 9%after%d /srv%

lax failure 9 >a | d /srv%
(call 5 (word (p =echo)) (word (s =[) (q =b) (p =])))
end stopped glob 3:5%trace 2:0:68%state lax failure 9 >a%after%d /srv%";

// calls, functions, the flag of `set -e`, jumps, and redirections
const COMMANDS: &str = r"lax failure 9 x=a | d /srv%
(skip)
end success%trace 2:0:68%state lax success 9 x=a%after%d /srv%

lax failure 9 | d /srv%
(call 5 (word (s (var z))))
end success%trace 2:0:68%state lax success 9%after%d /srv%

lax success 9 | d /srv%
(call 5 (word (s (output (exit 6 (word (p =1)))))))
end failure%trace 2:0:68%state lax failure 9%after%d /srv%

lax failure 9 >b | d /srv%
(call 5 (word (p =echo)) (word (p =a)) (word (q =c\x20d)))
end success%trace 2:0:68%state lax success 9 >ba\x20c\x20d\x0a%after%d /srv%

lax failure 9 | d /srv%
(call 5 (word (p =mkdir)) (word (p =-p)) (word (p =/srv/a/b)))
end success%trace 2:0:68 3:5:68 3:5:68 3:5:68%state lax success 9%after%d /srv%d /srv/a%d /srv/a/b%

lax success 9 | d /srv%
(call 5 (word (p =mkdir)) (word (p =/srv)) (word (p =/srv/a)))
end failure%trace 2:0:68 3:5:67 3:5:68%state lax failure 9%after%d /srv%d /srv/a%

lax failure 9 | d /srv%
(call 5 (word (p =[)) (word (p =!)) (word (p =-e)) (word (p =/srv/a)) (word (p =])))
end success%trace 2:0:68 3:5:66%state lax success 9%after%d /srv%

strict success 9 | d /srv%
(seq (call 5 (word (p =false))) (set 6 (x =a)))
end failure%trace 2:0:68%state strict failure 9%after%d /srv%

lax failure 9 one two\x20three | d /srv%
(def f (set 4 (x (join (count) (arg 1))))) (seq (fun 5 f (args) (word (p =q))) (set 8 (y (join (count) (arg 1)))))
end success%trace 2:0:68%state lax success 9 one two\x20three x=3one y=2one%after%d /srv%

lax failure 9 | d /srv%
(def f (seq (return 6 (word (p =0))) (set 7 (x =a)))) (fun 5 f)
end success%trace 2:0:68%state lax success 9%after%d /srv%

lax success 9 | d /srv%
(def f (return 4 (word (p =7)))) (fun 5 f)
end failure%trace 2:0:68%state lax failure 9%after%d /srv%

lax failure 9 | d /srv%
(def f (return 4)) (fun 5 f)
end failure%trace 2:0:68%state lax failure 9%after%d /srv%

lax failure 9 | d /srv%
(def f (set 2 (x (arg 1)))) (def g (seq (fun 3 f (word (p =b))) (set 4 (y (arg 1))))) (fun 5 g (word (p =c)))
end success%trace 2:0:68%state lax success 9 x=b y=c%after%d /srv%

lax success 9 one | d /srv%
(def f (seq (set 2 (x (arg 1))) (exit 3 (word (p =1))))) (chain (fun 5 f (word (p =b))) (or (set 6 (y =c))))
end failure%trace 2:0:68%state lax failure 9 one x=b%after%d /srv%

strict success 9 | d /srv%
(def f (return 4 (word (p =1)))) (seq (fun 5 f) (set 6 (x =a)))
end failure%trace 2:0:68%state strict failure 9%after%d /srv%

strict failure 9 | d /srv%
(def f (seq (call 4 (word (p =false))) (set 5 (x =a)))) (chain (fun 6 f) (or (set 7 (y =b))))
end success%trace 2:0:68%state strict success 9 x=a%after%d /srv%

lax failure 9 | d /srv%
(strict)
end success%trace 2:0:68%state strict success 9%after%d /srv%

strict failure 9 | d /srv%
(seq (lax) (call 5 (word (p =false))) (set 6 (x =a)))
end success%trace 2:0:68%state lax success 9 x=a%after%d /srv%

lax failure 9 | d /srv%
(seq (exit 5) (set 6 (x =a)))
end failure%trace 2:0:68%state lax failure 9%after%d /srv%

lax failure 9 | d /srv%
(seq (exit 5 (word (p =000))) (set 6 (x =a)))
end success%trace 2:0:68%state lax success 9%after%d /srv%

lax success 9 | d /srv%
(exit 5 (word (s =\x20255\x20)))
end failure%trace 2:0:68%state lax failure 9%after%d /srv%

lax failure 9 y=a | d /srv%
(export 5 (word (p =x=b=c)) (word (p =y)) (word (p =z)))
end success%trace 2:0:68%state lax success 9 x=b=c y=a%after%d /srv%

lax failure 9 x=a y=b | d /srv%
(unset 5 (word (p =x)) (word (p =z)))
end success%trace 2:0:68%state lax success 9 y=b%after%d /srv%

lax failure 9 one x=a | d /srv%
(chain (sub 5 (seq (set 6 (x =b)) (strict) (exit 8 (word (p =1))))) (or (set 9 (y (var x)))))
end success%trace 2:0:68%state lax success 9 one x=a y=a%after%d /srv%

lax failure 9 | d /srv%
(sub 5 (call 6 (word (p =touch)) (word (p =/srv/a))))
end success%trace 2:0:68 3:6:67%state lax success 9%after%d /srv%f /srv/a%

strict success 9 | d /srv%
(seq (sub 5 (exit 6 (word (p =1)))) (set 7 (x =a)))
end failure%trace 2:0:68%state strict failure 9%after%d /srv%

lax failure 9 >a | d /srv%
(seq (sub 5 (call 6 (word (p =echo)) (word (p =b)))) (sub 7 (exit 8)))
end success%trace 2:0:68%state lax success 9 >ab\x0a%after%d /srv%

lax failure 9 | d /srv%
(sub 5 (exit 6))
end failure%trace 2:0:68%state lax failure 9%after%d /srv%

lax failure 9 >a | d /srv%
(seq (quiet (call 5 (word (p =echo)) (word (p =b)))) (call 6 (word (p =echo)) (word (p =c))))
end success%trace 2:0:68%state lax success 9 >ac\x0a%after%d /srv%

lax success 9 | d /srv%
(quiet (call 5 (word (p =false))))
end failure%trace 2:0:68%state lax failure 9%after%d /srv%

lax success 9 | d /srv%
(err 5 (call 6 (word (p =false))))
end failure%trace 2:0:68%state lax failure 9%after%d /srv%

lax failure 9 >a | d /srv%
(quiet (err 5 (call 6 (word (p =echo)) (word (p =b)))))
end success%trace 2:0:68%state lax success 9 >a%after%d /srv%";

// lists, conditions and loops
const COMPOUNDS: &str = r"lax success 9 | d /srv%
(seq (skip) (call 5 (word (p =false))))
end failure%trace 2:0:68%state lax failure 9%after%d /srv%

lax success 9 | d /srv%
(chain (call 1 (word (p =false))) (and (set 2 (x =a))) (or (set 3 (y =b))) (and (set 4 (z =c))))
end success%trace 2:0:68%state lax success 9 y=b z=c%after%d /srv%

lax success 9 | d /srv%
(chain (call 5 (word (p =false))) (and (skip)))
end failure%trace 2:0:68%state lax failure 9%after%d /srv%

strict success 9 | d /srv%
(seq (chain (call 5 (word (p =false))) (and (skip))) (set 6 (x =a)))
end success%trace 2:0:68%state strict success 9 x=a%after%d /srv%

strict success 9 | d /srv%
(seq (chain (skip) (and (call 5 (word (p =false))))) (set 6 (x =a)))
end failure%trace 2:0:68%state strict failure 9%after%d /srv%

strict success 9 | d /srv%
(seq (not (call 5 (word (p =false)))) (set 6 (x =a)) (not (skip)))
end failure%trace 2:0:68%state strict failure 9 x=a%after%d /srv%

strict success 9 | d /srv%
(if ((seq (call 5 (word (p =false))) (skip)) (set 6 (x =a))) (skip))
end success%trace 2:0:68%state strict success 9 x=a%after%d /srv%

lax success 9 | d /srv%
(if ((call 5 (word (p =false))) (set 6 (x =a))) ((skip) (set 7 (x =b))) (set 8 (x =c)))
end success%trace 2:0:68%state lax success 9 x=b%after%d /srv%

lax success 9 | d /srv%
(if ((call 5 (word (p =false))) (set 6 (x =a))) (set 8 (x =c)))
end success%trace 2:0:68%state lax success 9 x=c%after%d /srv%

lax failure 9 | d /srv%
(if ((call 5 (word (p =false))) (set 6 (x =a))) (skip))
end success%trace 2:0:68%state lax success 9%after%d /srv%

lax success 9 | d /srv%
(if ((call 5 (word (p =false))) (skip)) (exit 6))
end failure%trace 2:0:68%state lax failure 9%after%d /srv%

lax failure 9 | d /srv%
(for 5 i () (call 6 (word (p =false))))
end success%trace 2:0:68%state lax success 9%after%d /srv%

lax success 9 | d /srv%
(for 5 i ((word (p =a))) (call 6 (word (p =false))))
end failure%trace 2:0:68%state lax failure 8 i=a%after%d /srv%

lax success 9 | d /srv%
(for 5 i ((word (p =a)) (word (p =b))) (seq (call 6 (word (p =false))) (break)))
end success%trace 2:0:68%state lax success 8 i=a%after%d /srv%

lax failure 9 | d /srv%
(for 5 i ((word (p =a)) (word (p =b))) (seq (set 6 (x (join (var x) (var i)))) (continue) (set 8 (y =d))))
end success%trace 2:0:68%state lax success 7 i=b x=ab%after%d /srv%

lax failure 9 a b c | d /srv%
(for 5 i ((args)) (case 6 (var i) (((pat (p =b))) (break))))
end success%trace 2:0:68%state lax success 7 a b c i=b%after%d /srv%

lax failure 9 | d /srv%
(for 5 i ((word (p =a)) (word (p =b))) (while 6 (skip) (seq (set 7 (x (join (var x) (var i)))) (break))))
end success%trace 2:0:68%state lax success 5 i=b x=ab%after%d /srv%

lax failure 2 a b c | d /srv%
(for 5 i ((args)) (call 6 (word (p =touch)) (word (q =/srv/) (q (var i)))))
end bound 3:5%trace 2:0:68 3:6:67 3:6:67%state lax success 0 a b c i=b%after%d /srv%f /srv/a%f /srv/b%

lax failure 9 | d /srv%f /srv/a%
(while 5 (call 6 (word (p =test)) (word (p =-e)) (word (p =/srv/a))) (call 7 (word (p =rm)) (word (p =/srv/a))))
end success%trace 2:0:68 3:6:67 3:7:68 3:6:66%state lax success 8%after%d /srv%

lax failure 9 | d /srv%
(while 5 (call 6 (word (p =false))) (set 7 (x =a)))
end success%trace 2:0:68%state lax success 9%after%d /srv%

lax failure 9 x=a | d /srv%
(while 5 (chain (call 6 (word (p =test)) (word (s (var x)))) (or (break))) (seq (unset 7 (word (p =x))) (not (skip))))
end failure%trace 2:0:68%state lax failure 8%after%d /srv%

lax failure 1 | d /srv%
(while 5 (skip) (set 6 (x (join (var x) =a))))
end bound 3:5%trace 2:0:68%state lax success 0 x=a%after%d /srv%

lax failure 2 | d /srv%
(while 5 (continue) (set 6 (x =a)))
end bound 3:5%trace 2:0:68%state lax success 0%after%d /srv%

lax failure 9 | d /srv%
(while 5 (not (call 6 (word (p =false)))) (seq (not (skip)) (exit 7)))
end failure%trace 2:0:68%state lax failure 8%after%d /srv%

lax failure 9 | d /srv%
(while 5 (not (call 6 (word (p =false)))) (exit 7))
end success%trace 2:0:68%state lax success 8%after%d /srv%

lax failure 9 one | d /srv%
(case 5 (arg 1) (((pat (q =*)) (pat (p =[!n-p]*))) (set 6 (x =a))) (((pat (p =*))) (set 7 (x =b))))
end success%trace 2:0:68%state lax success 9 one x=b%after%d /srv%

lax failure 9 one y=* | d /srv%
(case 5 (arg 1) (((pat (p =?))) (skip)) (((pat (p =o) (s (var y)))) (set 6 (x =a))) (((pat (p =*))) (skip)))
end success%trace 2:0:68%state lax success 9 one x=a y=*%after%d /srv%

lax failure 9 | d /srv%
(case 5 =a (((pat (p =b))) (call 6 (word (p =false)))))
end success%trace 2:0:68%state lax success 9%after%d /srv%

lax failure 9 | d /srv%
(case 5 (var z) (((pat)) (set 6 (x =a))))
end success%trace 2:0:68%state lax success 9 x=a%after%d /srv%

lax failure 9 rm /srv/a | d /srv%f /srv/a%
(case 5 =a (((pat (s (output (call 6 (args))))) (pat (p =a)) (pat (s (output (call 7 (args)))))) (set 8 (x =c))))
end success%trace 2:0:68 3:6:68%state lax success 9 rm /srv/a x=c%after%d /srv%";

// a stop for each reason
const STOPS: &str = r"lax failure 9 x=a | d /srv%
(call 5 (word (p =.)) (word (p =/srv/a)))
end stopped call 3:5%trace 2:0:68%state lax failure 9 x=a%after%d /srv%

lax failure 9 x=a | d /srv%
(call 5 (word (p =exit)) (word (p =0)))
end stopped call 3:5%trace 2:0:68%state lax failure 9 x=a%after%d /srv%

lax failure 9 x=a | d /srv%
(def f (skip)) (call 5 (word (p =f)))
end stopped call 3:5%trace 2:0:68%state lax failure 9 x=a%after%d /srv%

lax failure 9 x=a | d /srv%
(def f (skip)) (unset 5 (word (p =f)) (word (p =x)))
end stopped call 3:5%trace 2:0:68%state lax failure 9 x=a%after%d /srv%

lax failure 9 x=a | d /srv%
(unset 5 (word (p =IFS)) (word (p =x)))
end stopped call 3:5%trace 2:0:68%state lax failure 9 x=a%after%d /srv%

lax failure 9 x=a | d /srv%
(export 5 (word (p =1=a)) (word (p =x=b)))
end stopped call 3:5%trace 2:0:68%state lax failure 9 x=a%after%d /srv%

lax failure 9 x=a | d /srv%
(call 5 (word (p =echo)) (word (p =-n)))
end stopped echo 3:5%trace 2:0:68%state lax failure 9 x=a%after%d /srv%

lax failure 9 x=a | d /srv%
(call 5 (word (p =echo)) (word (p =a)) (word (p =b\x5cc)))
end stopped echo 3:5%trace 2:0:68%state lax failure 9 x=a%after%d /srv%

lax failure 9 x=a | d /srv%l /srv/l a%
(call 5 (word (p =touch)) (word (p =/srv/l)))
end stopped link 3:5%trace 2:0:68 3:5:65%state lax failure 9 x=a%after%d /srv%l /srv/l a%

lax failure 9 x=a | d /srv%l /srv/l a%
(call 5 (word (p =touch)) (word (p =/srv/l/a)))
end stopped link 3:5%trace 2:0:68 3:5:2%state lax failure 9 x=a%after%d /srv%l /srv/l a%

lax failure 9 x=a | d /srv%
(call 5 (word (p =touch)) (word (p =/srv/a)) (word (p =/srv/b/)))
end stopped slash 3:5%trace 2:0:68%state lax failure 9 x=a%after%d /srv%

lax failure 9 x=a | d /srv%f /srv/a%
(call 5 (word (p =test)) (word (p =-d)) (word (p =/srv/a/)))
end stopped slash 3:5%trace 2:0:68 3:5:64%state lax failure 9 x=a%after%d /srv%f /srv/a%

lax failure 9 x=a | d /srv%
(call 5 (word (p =rmdir)) (word (p =/srv)) (word (p =/)))
end stopped root 3:5%trace 2:0:68%state lax failure 9 x=a%after%d /srv%

lax failure 9 x=a | d /srv%
(call 5 (word (p =rmdir)) (word (p =/srv)) (word (q =\e)))
end stopped empty 3:5%trace 2:0:68%state lax failure 9 x=a%after%d /srv%

lax failure 9 x=a | d /srv%
(call 5 (word (p =rmdir)) (word (p =/srv)) (word (p =/srv/..)))
end stopped dotdot 3:5%trace 2:0:68%state lax failure 9 x=a%after%d /srv%

lax failure 9 x=a | d /srv%
(call 5 (word (p =rmdir)) (word (p =/srv)) (word (p =/srv/.)))
end stopped dot 3:5%trace 2:0:68%state lax failure 9 x=a%after%d /srv%

lax failure 9 x=a | d /srv%
(call 5 (word (p =touch)) (word (p =.)))
end stopped dot 3:5%trace 2:0:68%state lax failure 9 x=a%after%d /srv%

lax failure 9 x=a | d /srv%
(case 5 =a (((pat (p =b))) (skip)) (((pat (p =[^b]))) (skip)))
end stopped pattern 3:5%trace 2:0:68%state lax failure 9 x=a%after%d /srv%

lax failure 9 x=a | d /srv%
(case 5 =a (((pat (s =\x5c))) (skip)))
end stopped pattern 3:5%trace 2:0:68%state lax failure 9 x=a%after%d /srv%

lax failure 9 x=a | d /srv%
(seq (stop 5 pipe) (set 6 (x =b)))
end stopped pipe 3:5%trace 2:0:68%state lax failure 9 x=a%after%d /srv%

lax failure 9 x=a | d /srv%
(set 5 (x (output (err 6 (skip)))))
end stopped message 3:6%trace 2:0:68%state lax failure 9 x=a%after%d /srv%

strict failure 9 x=a | d /srv%
(set 5 (x (output (seq (skip) (call 6 (word (p =false)))))))
end stopped strict 3:6%trace 2:0:68%state strict failure 9 x=a%after%d /srv%

lax failure 9 x=a | d /srv%
(exit 5 (word (p =256)))
end stopped status 3:5%trace 2:0:68%state lax failure 9 x=a%after%d /srv%

lax failure 9 x=a | d /srv%
(exit 5 (word (p =1)) (word (p =2)))
end stopped status 3:5%trace 2:0:68%state lax failure 9 x=a%after%d /srv%

lax failure 9 x=a | d /srv%
(def f (return 5 (word (p =-1)))) (fun 4 f)
end stopped status 3:5%trace 2:0:68%state lax failure 9 x=a%after%d /srv%

lax failure 9 x=a | d /srv%f /srv/a%
(call 5 (word (p =test)) (word (p =-x)) (word (p =/srv/a)))
end stopped run 3:5%trace 2:0:68 3:5:68%state lax failure 9 x=a%after%d /srv%f /srv/a%

lax failure 9 x=a | d /srv%
(call 5 (word (p =mv)) (word (p =/srv/a)) (word (p =/srv/a)))
end stopped same 3:5%trace 2:0:68%state lax failure 9 x=a%after%d /srv%

lax failure 9 x=a | d /srv%
(while 5 (stop 6 conffile) (skip))
end stopped conffile 3:6%trace 2:0:68%state lax failure 9 x=a%after%d /srv%

lax failure 9 x=a | d /srv%
(def f (stop 5 restore)) (sub 3 (fun 4 f))
end stopped restore 3:5%trace 2:0:68%state lax failure 9 x=a%after%d /srv%";
