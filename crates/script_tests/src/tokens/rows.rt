//! Texts and their tokens or faults by hand, a row for each: from POSIX.1-2017, XCU 2.2, 2.3, 2.6 and 2.7, and from
//! the list of forms that are not supported. In a row `N` stands for a newline, `T` for a tab, `R` for a carriage
//! return and `Z` for a NUL; ` -> ` ends the text. The form of tokens and faults stands at the head of tests.rt.
//! Apart from whole texts, a text stands behind `#!/bin/sh` and a newline, which are 10 bytes.

// Blanks, comments, joined lines and plain words.
pub const BLANKS_AND_COMMENTS: &str = r#"a -> 10:[a]
a b -> 10:[a] 12:[b]
 TaT b  -> 12:[a] 15:[b]
aNbN -> 10:[a] 11:nl 12:[b] 13:nl
aRN -> 10:[aR] 12:nl
é -> 10:[é]
a{}!if -> 10:[a{}!if]
# a 'b -> no tokens
# -> no tokens
#Na -> 11:nl 12:[a]
a #bNc -> 10:[a] 14:nl 15:[c]
a#b -> 10:[a#b]
a;#b -> 10:[a] 11:;
a)#b -> 10:[a] 11:)
(#b -> 10:(
''#b -> 10:<>[#b]
# a\Nb -> 14:nl 15:[b]
# $(N# `N -> 14:nl 18:nl
a\Nb -> 10:[ab]
\Na -> 12:[a]
a\N -> 10:[a]
\N\N -> no tokens
a \N b -> 10:[a] 15:[b]
a\N b -> 10:[a] 14:[b]
a\N#b -> 10:[a#b]
 \N#bNc -> 15:nl 16:[c]
\NN -> 12:nl
a\\Nb -> 10:[a]<\> 13:nl 14:[b]
a\\\Nb -> 10:[a]<\>[b]
\ -> 10:[\]
a\ -> 10:[a\]
\N\ -> 12:[\]"#;

// Operators that are no redirections.
pub const OPERATORS: &str = r#"a;b -> 10:[a] 11:; 12:[b]
a;;b -> 10:[a] 11:;; 13:[b]
;;; -> 10:;; 12:;
;;;; -> 10:;; 12:;;
; ; -> 10:; 12:;
;\N; -> 10:;;
;\N\N;\N; -> 10:;; 18:;
a&&b -> 10:[a] 11:&& 13:[b]
a&\N&b -> 10:[a] 11:&& 15:[b]
&&&& -> 10:&& 12:&&
a||b -> 10:[a] 11:|| 13:[b]
||| -> 10:|| 12:|
|\N| -> 10:||
| | -> 10:| 12:|
a|b -> 10:[a] 11:| 12:[b]
(a) -> 10:( 11:[a] 12:)
) -> 10:)
)) -> 10:) 11:)
f() -> 10:[f] 11:( 12:)
( (a) ) -> 10:( 12:( 13:[a] 14:) 16:)
()( -> 10:( 11:) 12:(
(N( -> 10:( 11:nl 12:(
(\N a -> 10:( 14:[a]
N;N -> 10:nl 11:; 12:nl
a\;b -> 10:[a]<;>[b]
a';'b -> 10:[a]<;>[b]
a\N; -> 10:[a] 13:;"#;

// Redirections, and digits before them.
pub const REDIRECTIONS: &str = r#">/dev/null -> 10:>null
> T/dev/null -> 10:>null
1>/dev/null -> 10:>null
>>/dev/null -> 10:>null
1>> /dev/null -> 10:>null
2>/dev/null -> 10:2>null
2> /dev/null -> 10:2>null
2>>/dev/null -> 10:2>null
2>> /dev/null -> 10:2>null
</dev/null -> 10:<null
0< /dev/null -> 10:<null
>&2 -> 10:>&2
1>&2 -> 10:>&2
2>&1 -> 10:2>&1
a>&2 -> 10:[a] 11:>&2
a >&2>/dev/null -> 10:[a] 12:>&2 15:>null
a >/dev/null 2>&1 -> 10:[a] 12:>null 23:2>&1
>/dev/null>&2 -> 10:>null 20:>&2
2>&1</dev/null -> 10:2>&1 14:<null
2>&1&&a -> 10:2>&1 14:&& 16:[a]
2>&1|a -> 10:2>&1 14:| 15:[a]
>&2Na -> 10:>&2 13:nl 14:[a]
>&2 2 -> 10:>&2 14:[2]
(a)>&2; -> 10:( 11:[a] 12:) 13:>&2 16:;
(>&2) -> 10:( 11:>&2 14:)
>/dev/null # -> 10:>null
>/dev/null;a -> 10:>null 20:; 21:[a]
>/dev/null( -> 10:>null 20:(
>/dev/nullNa -> 10:>null 20:nl 21:[a]
>/dev/null\N -> 10:>null
>\N/dev\N/null -> 10:>null
> \NT/dev/null -> 10:>null
>\N>/dev/null -> 10:>null
2\N>\N&\N1 -> 10:2>&1
1\N>/dev/null -> 10:>null
\N1>/dev/null -> 12:>null
>&\N2 -> 10:>&2
>&2\N -> 10:>&2
>&2\N a -> 10:>&2 16:[a]
1 >/dev/null -> 10:[1] 12:>null
a1>/dev/null -> 10:[a1] 12:>null
2a>/dev/null -> 10:[2a] 12:>null
'1'>/dev/null -> 10:<1> 13:>null
1''>/dev/null -> 10:[1]<> 13:>null
\2>/dev/null -> 10:<2> 12:>null
$12>&2 -> 10:$1[2] 13:>&2
2'>' -> 10:[2]<>>
2\> -> 10:[2]<>>
12 -> 10:[12]
2 2>/dev/null -> 10:[2] 12:2>null
;2>/dev/null -> 10:; 11:2>null
$(a 2>&1) -> 10:$10(12:[a] 14:2>&1)
$(>/dev/null) -> 10:$10(12:>null)
$(>&2)2>/dev/null -> 10:$10(12:>&2)[2] 17:>null"#;

// Here-documents and redirections that are not supported.
pub const REFUSED_REDIRECTIONS: &str = r#"<<a -> heredoc 10
<< -> heredoc 10
a <<EOFNbNEOFN -> heredoc 12
<\N<a -> heredoc 10
0<<a -> heredoc 11
12<<a -> heredoc 12
a 2<<a -> heredoc 13
<<<a -> heredoc 10
a<<-b -> heredoc 11
$(a <<b -> heredoc 14
< <a -> redirect 10
> -> redirect 10
< -> redirect 10
>a -> redirect 10
a <b -> redirect 12
>  -> redirect 10
>N/dev/null -> redirect 10
>/dev/nul -> redirect 10
>/dev/nullx -> redirect 10
>/dev/null/ -> redirect 10
>/dev//null -> redirect 10
>/dev/null\ -> redirect 10
>/dev/null\Nx -> redirect 10
>/dev/null# -> redirect 10
>/dev/null"" -> redirect 10
>/dev/null$x -> redirect 10
>/dev/nul\l -> redirect 10
>'/dev/null' -> redirect 10
>\/dev/null -> redirect 10
> # /dev/null -> redirect 10
>/dev/null2>&1 -> redirect 10
a >/dev/null2>&1 -> redirect 12
a>/dev/null > -> redirect 22
3>/dev/null -> redirect 11
12>/dev/null -> redirect 12
01>/dev/null -> redirect 12
0>/dev/null -> redirect 11
0>>/dev/null -> redirect 11
1</dev/null -> redirect 11
2</dev/null -> redirect 11
00</dev/null -> redirect 12
3\N>/dev/null -> redirect 13
$x2>&1 -> redirect 13
2 >&1 -> redirect 12
>& 2 -> redirect 10
1>& 2 -> redirect 11
2>& 1 -> redirect 11
2> &1 -> redirect 11
> &2 -> redirect 10
>& -> redirect 10
>&1 -> redirect 10
1>&1 -> redirect 11
2>&2 -> redirect 11
0>&2 -> redirect 11
3>&2 -> redirect 11
2>&12 -> redirect 11
>&2x -> redirect 10
>&2'' -> redirect 10
>&2$x -> redirect 10
>&2# -> redirect 10
>&2\ -> redirect 10
>&2\Nx -> redirect 10
>&'2' -> redirect 10
>&$x -> redirect 10
>&- -> redirect 10
>&2>&1 -> redirect 13
>>&2 -> redirect 10
<&0 -> redirect 10
<>/dev/null -> redirect 10
0<>/dev/null -> redirect 11
>|/dev/null -> redirect 10
2>|/dev/null -> redirect 11
>>>/dev/null -> redirect 10
>< -> redirect 10
>(a) -> redirect 10
<(a) -> redirect 10
$(a >) -> redirect 14
$(>&2)2>&1 -> redirect 17"#;

// Quotes.
pub const QUOTES: &str = r#"'a b' -> 10:<a b>
'' -> 10:<>
'''' -> 10:<><>
a''b -> 10:[a]<>[b]
'a''b' -> 10:<a><b>
'a\Nb' -> 10:<a\Nb>
'\' -> 10:<\>
'"$(`&' -> 10:<"$(`&>
"" -> 10:<>
"""" -> 10:<><>
"a b" -> 10:<a b>
"a""b" -> 10:<a><b>
"\N" -> 10:<>
"\N\N" -> 10:<>
"a\Nb" -> 10:<ab>
"\Na" -> 10:<a>
"\$\`\"\\" -> 10:<$`"\>
"a\$b" -> 10:<a$b>
"\a\'\ " -> 10:<\a\'\ >
"aNb" -> 10:<aNb>
"\\N" -> 10:<\N>
"'#&;()<>|" -> 10:<'#&;()<>|>
"~{a,b}" -> 10:<~{a,b}>
\a\b -> 10:<a><b>
a\ b -> 10:[a]< >[b]
\\ -> 10:<\>
\'a\' -> 10:<'>[a]<'>
\" -> 10:<">
\#a -> 10:<#>[a]
\$x -> 10:<$>[x]
\`\& -> 10:<`><&>
"a$x" -> 10:<a>"$x"
"$x" -> 10:"$x"
"\N$x\N" -> 10:"$x"
"$x a" -> 10:"$x"< a>
"$x$y" -> 10:"$x""$y"
"$x""" -> 10:"$x"<>
a"b"'c'\d$e -> 10:[a]<b><c><d>$e
' -> open-quote 10
" -> open-quote 10
a 'b -> open-quote 12
"a\" -> open-quote 10
"\ -> open-quote 10
'a\'b' -> open-quote 15
"a'b -> open-quote 10
''" -> open-quote 12
a"b"c' -> open-quote 15
"'"' -> open-quote 13
"$x -> open-quote 10
"$ -> open-quote 10
"N# a -> open-quote 10
\N' -> open-quote 12
a;'bN; -> open-quote 12"#;

// Parameters.
pub const PARAMETERS: &str = r#"$x -> 10:$x
$x1_Y -> 10:$x1_Y
$_ -> 10:$_
$x-y -> 10:$x[-y]
$x$y -> 10:$x$y
${x}y -> 10:$x[y]
$\Nx\Ny -> 10:$xy
$x\N -> 10:$x
${\Nx\Ny\N} -> 10:$xy
$1 -> 10:$1
$9 -> 10:$9
$10 -> 10:$1[0]
$1\N0 -> 10:$1[0]
${1}0 -> 10:$1[0]
${9} -> 10:$9
$1x -> 10:$1[x]
$# -> 10:$#
${#} -> 10:$#
$#x -> 10:$#[x]
$## -> 10:$#[#]
"$1""$#" -> 10:"$1""$#"
"${x}" -> 10:"$x"
${x:-} -> 10:${x:-}
${x:-b c} -> 10:${x:-b c}
${1:-b} -> 10:${1:-b}
"${x:-b c}" -> 10:"${x:-b c}"
${x:-a:-b} -> 10:${x:-a:-b}
${x:-b}} -> 10:${x:-b}[}]
${x:-()<>;&|#*?=:,..} -> 10:${x:-()<>;&|#*?=:,..}
${x:-Tbé} -> 10:${x:-Tbé}
${x\N:\N-\Nb\Nc\N} -> 10:${x:-bc}
$ -> 10:[$]
a$ -> 10:[a$]
$ a -> 10:[$] 12:[a]
$N -> 10:[$] 11:nl
$/x -> 10:[$/x]
$%$x -> 10:[$%]$x
$=,.:+]^ -> 10:[$=,.:+]^]
$\a -> 10:[$]<a>
$\$x -> 10:[$]<$>[x]
$\ -> 10:[$\]
$\N -> 10:[$]
$; -> 10:[$] 11:;
$) -> 10:[$] 11:)
$} -> 10:[$}]
$[1] -> 10:[$[1]]
$~ -> 10:[$~]
$>/dev/null -> 10:[$] 11:>null
$é -> 10:[$é]
"$" -> 10:<$>
"a$ b" -> 10:<a$ b>
"$'b'" -> 10:<$'b'>
"$\a" -> 10:<$\a>
"$\"" -> 10:<$">
"$x$" -> 10:"$x"<$>
"$@" -> 10:"$@"
a "$@" b -> 10:[a] 12:"$@" 17:[b]
"$@"; -> 10:"$@" 14:;
"\N$\N@"\N -> 10:"$@"
$("$@") -> 10:$10(12:"$@")
"$("$@")" -> 10:"$11(13:"$@")"
${ -> open-substitution 10
${\N -> open-substitution 10
${x -> open-substitution 10
${x: -> open-substitution 10
a ${x:- -> open-substitution 12
${x:-b c -> open-substitution 10
${# -> open-substitution 10
${9 -> open-substitution 10
"${x -> open-substitution 11
"a ${x:-b -> open-substitution 13
$(${x:-b) -> open-substitution 12"#;

// Parameter expansions that are not supported.
pub const REFUSED_PARAMETERS: &str = r#"$0 -> param 10
$* -> param 10
$? -> param 10
$$x -> param 10
$! -> param 10
$- -> param 10
a b$0 -> param 13
"a$0" -> param 12
"$?" -> param 11
"$* -> param 11
$\N0 -> param 10
$'b' -> param 10
$"b" -> param 10
a$' -> param 11
$\N' -> param 10
${x- -> param 10
${0 -> param 10
${10 -> param 10
${#x -> param 10
${x:-b' -> param 10
${} -> param 10
${0} -> param 10
${10} -> param 10
${@} -> param 10
"${@}" -> param 11
${*} -> param 10
${?} -> param 10
${!x} -> param 10
${#x} -> param 10
${#:-b} -> param 10
${1a} -> param 10
${x } -> param 10
${ x} -> param 10
${x+b} -> param 10
${x-b} -> param 10
${x=b} -> param 10
${x?b} -> param 10
${x%b} -> param 10
${x##b} -> param 10
${x:=b} -> param 10
${x:+b} -> param 10
${x:?b} -> param 10
${x:1} -> param 10
${x:} -> param 10
${x:-N} -> param 10
${x:-'b'} -> param 10
${x:-"b"} -> param 10
${x:-\}} -> param 10
${x:-`b`} -> param 10
${x:-$y} -> param 10
${x:-{} -> param 10
${x:-~} -> param 10
"${x:-b" -> param 11
$($0 -> param 12
$@ -> all-args 10
a$@ -> all-args 11
"$@"a -> all-args 11
a"$@" -> all-args 12
"$@ " -> all-args 11
"a$@" -> all-args 12
"$@""" -> all-args 11
''"$@" -> all-args 13
"$@$@" -> all-args 11
a="$@" -> all-args 13
"$@"\Na -> all-args 11
$\N@ -> all-args 10
$(a $@) -> all-args 14
a b "$x$@" -> all-args 17"#;

// Command substitutions, and the forms found at once.
pub const SUBSTITUTIONS: &str = r#"$() -> 10:$10()
$( ) -> 10:$10()
$(a) -> 10:$10(12:[a])
"$(a)" -> 10:"$11(13:[a])"
a$(b)c -> 10:[a]$11(13:[b])[c]
"a$(b)c" -> 10:<a>"$12(14:[b])"<c>
a=$(b) -> 10:[a=]$12(14:[b])
$(a b) -> 10:$10(12:[a] 14:[b])
$(a;b) -> 10:$10(12:[a] 13:; 14:[b])
$(NaN) -> 10:$10(12:nl 13:[a] 14:nl)
$($(a)) -> 10:$10(12:$12(14:[a]))
$(a)$(b) -> 10:$10(12:[a])$14(16:[b])
$(a) b) -> 10:$10(12:[a]) 15:[b] 16:)
$(a (b) c) -> 10:$10(12:[a] 14:( 15:[b] 16:) 18:[c])
$(a()) -> 10:$10(12:[a] 13:( 14:))
$( (a) ) -> 10:$10(13:( 14:[a] 15:))
$( (a))b -> 10:$10(13:( 14:[a] 15:))[b]
$(a ( ())) -> 10:$10(12:[a] 14:( 16:( 17:) 18:))
($(a)) -> 10:( 11:$11(13:[a]) 15:)
$(a ')') -> 10:$10(12:[a] 14:<)>)
$(a ")") -> 10:$10(12:[a] 14:<)>)
$(a \)) -> 10:$10(12:[a] 14:<)>)
$(a #)N) -> 10:$10(12:[a] 16:nl)
$(a#) -> 10:$10(12:[a#])
$("") -> 10:$10(12:<>)
"$(a "b")" -> 10:"$11(13:[a] 15:<b>)"
"$(a '"')" -> 10:"$11(13:[a] 15:<">)"
"$("$(a)")" -> 10:"$11(13:"$14(16:[a])")"
"$($x)$x" -> 10:"$11(13:$x)""$x"
$\N(a\N) -> 10:$10(14:[a])
$(\Na) -> 10:$10(14:[a])
$(\N (a)) -> 10:$10(15:( 16:[a] 17:))
$(a ${x:-)} b) -> 10:$10(12:[a] 14:${x:-)} 22:[b])
$( -> open-substitution 10
a $(b -> open-substitution 12
"$(a -> open-substitution 11
$(a $(b -> open-substitution 14
$(a $(b) -> open-substitution 10
$($(a -> open-substitution 12
$( (a) -> open-substitution 10
$(a #) -> open-substitution 10
$(a\) -> open-substitution 10
$(a\ -> open-substitution 10
$(a) $( -> open-substitution 15
$(a >&2 -> open-substitution 10
$("$(a)" -> open-substitution 10
$("$(a) -> open-quote 12
$(a ') -> open-quote 14
a $(b 'c -> open-quote 16
"$(a) -> open-quote 10
"$(a" -> open-quote 14
a "b $(c) -> open-quote 12
$((1)) -> arith 10
$(( -> arith 10
$(\N( -> arith 10
a$(( -> arith 11
"a $(( -> arith 13
(( -> arith 10
(\N(a -> arith 10
a (( -> arith 12
a(( -> arith 11
a;(( -> arith 12
((( -> arith 10
( (( -> arith 12
$( (( -> arith 13
$(a(( -> arith 13
'$(('\$\((a) -> 10:<$((><$><(> 19:( 20:[a] 21:)
` -> backquote 10
`a` -> backquote 10
a b` -> backquote 13
"`" -> backquote 11
"a ` -> backquote 13
$` -> backquote 11
"$`" -> backquote 12
"\`` -> backquote 13
$(`) -> backquote 12
"$(a ` -> backquote 15
'a'` -> backquote 13
& -> background 10
a & -> background 12
a & b -> background 12
a& -> background 11
&&& -> background 12
& & -> background 10
&\N & -> background 10
&>/dev/null -> background 10
|& -> background 11
;& -> background 11
2>&1& -> background 14
$(a&) -> background 13"#;

// Forms that are looked for once a word is whole.
pub const WHOLE_WORDS: &str = r#"~ -> tilde 10
~/a -> tilde 10
a ~b -> tilde 12
a=~ -> tilde 12
a:~b -> tilde 12
=~ -> tilde 11
a b=c:~ -> tilde 16
a=~:~ -> tilde 12
\N~ -> tilde 12
a=\N~ -> tilde 14
;~ -> tilde 11
$x:~ -> tilde 13
${x:-b}=~ -> tilde 18
$(~) -> tilde 12
~$(~) -> tilde 13
a~ -> 10:[a~]
''~ -> 10:<>[~]
a=''~ -> 10:[a=]<>[~]
a'='~ -> 10:[a]<=>[~]
a\=~ -> 10:[a]<=>[~]
\~ -> 10:<~>
a=\~ -> 10:[a=]<~>
a="~" -> 10:[a=]<~>
$x~ -> 10:$x[~]
a=$x~ -> 10:[a=]$x[~]
$(a=)~ -> 10:$10(12:[a=])[~]
a=b~:c -> 10:[a=b~:c]
{a,b} -> brace 10
a{b,c} -> brace 11
{b.. -> brace 10
{1..3} -> brace 10
{, -> brace 10
{.. -> brace 10
a b{, -> brace 13
{a}b,c -> brace 10
{a{b,c -> brace 10
{\Na, -> brace 10
{.\N. -> brace 10
{$x, -> brace 10
{$(a), -> brace 10
{"a".. -> brace 10
'{'{, -> brace 13
$(a{b,c} -> brace 13
${x}{, -> brace 14
{ -> 10:[{]
{} -> 10:[{}]
,{a} -> 10:[,{a}]
..{. -> 10:[..{.]
{a.b.c} -> 10:[{a.b.c}]
{'a,b'} -> 10:[{]<a,b>[}]
{a\,b} -> 10:[{a]<,>[b}]
\{a,b} -> 10:<{>[a,b}]
"{"a,b -> 10:<{>[a,b]
{.''.} -> 10:[{.]<>[.}]
{.$x.} -> 10:[{.]$x[.}]
{.\.} -> 10:[{.]<.>[}]
{${x:-,..}} -> 10:[{]${x:-,..}[}]
${x},.. -> 10:$x[,..]
$\{a,b} -> 10:[$]<{>[a,b}]
{$(a,b)} -> 10:[{]$11(13:[a,b])[}]
{ a,b; } -> 10:[{] 12:[a,b] 15:; 17:[}]
$(case -> subst-case 12
$(case) -> subst-case 12
$(case x in a) b;; esac) -> subst-case 12
"$(case)" -> subst-case 13
$(a case) -> subst-case 14
$(a;case  -> subst-case 14
$($(case)) -> subst-case 14
$($(a) case -> subst-case 17
$(ca\Nse) -> subst-case 12
$(\Ncase) -> subst-case 14
$((case -> arith 10
$( (case -> subst-case 14
$("case") -> 10:$10(12:<case>)
$(\case) -> 10:$10(12:<c>[ase])
$(case'') -> 10:$10(12:[case]<>)
$(case$x) -> 10:$10(12:[case]$x)
$(cases) -> 10:$10(12:[cases])
$(case=a) -> 10:$10(12:[case=a])
$(# caseN) -> 10:$10(18:nl)
$(a) case -> 10:$10(12:[a]) 15:[case]
case a in -> 10:[case] 15:[a] 17:[in]"#;

// Several faults, of which one is answered.
pub const FAULTS_TOGETHER: &str = r#"'a & -> open-quote 10
& 'a -> background 10
a ~$0 -> param 13
~$0 -> param 11
~' -> open-quote 11
~" -> open-quote 11
~$( -> open-substitution 11
~${x -> open-substitution 11
~$(( -> arith 11
~ ` -> tilde 10
~;& -> tilde 10
~> -> tilde 10
a~`b -> backquote 12
a&~ -> background 11
{a,$0 -> param 13
{a,b}' -> open-quote 15
$@` -> backquote 12
$@' -> open-quote 12
$@$0 -> param 12
$@{a,b} -> all-args 10
$@:~ -> all-args 10
{a,b}$@ -> brace 10
{a,b}:~ -> brace 10
{=~, -> brace 10
{~,$@ -> brace 10
=~{, -> tilde 11
a=~$@ -> tilde 12
~{a,b}$@ -> tilde 10
a={~, -> brace 12
$@$(~) -> tilde 14
$@$(a -> open-substitution 12
{,}$(case) -> subst-case 15
~$(a) -> tilde 10
$(case $0 -> subst-case 12
$(case$0 -> param 16
$(case' -> open-quote 16
$(~ &) -> tilde 12
$(a;&) ~ -> background 14
"$0 `" -> param 11
"` -> backquote 11
"$0 -> param 11
"$@` -> backquote 13
"$@ -> open-quote 10
`$0 -> backquote 10
> ` -> redirect 10
<<$( -> heredoc 10
3> ` -> redirect 11
'a' "` -> backquote 15
((~ -> arith 10
$@N' -> all-args 10
"$(a $0) -> param 15
"$(a) $0 -> param 16"#;

// Texts with their first lines.
pub const WHOLE_TEXTS: &str = r#" -> interpreter 0
#!/bin/sh -> no tokens
#!/bin/shN -> no tokens
#!/bin/dashNa -> 12:[a]
#!/bin/bashNa -> 12:[a]
#! T/bin/sh TNa -> 14:[a]
#!/bin/sh -eNa -> strict 13:[a]
#!/bin/shT-e N -> strict no tokens
#!/bin/sh -e -> strict no tokens
#!/bin/bash  -eT -> strict no tokens
#! /bin/dash -eNN -> strict 16:nl
#!/bin/shN#!/bin/sh -eN -> 22:nl
#!/bin/sh-eN -> interpreter 0
#!/bin/sh -exN -> interpreter 0
#!/bin/sh -e -eN -> interpreter 0
#!/bin/sh eN -> interpreter 0
#!/bin/sh -N -> interpreter 0
#!/bin/sh -e#N -> interpreter 0
#!/bin/sh # aN -> interpreter 0
#!/bin/sh\NN -> interpreter 0
#!/bin/shRN -> interpreter 0
#!/bin/shxN -> interpreter 0
#!/bin/sN -> interpreter 0
#!/bin/bas -> interpreter 0
#!/bin/zshN -> interpreter 0
#!/bin/sh/N -> interpreter 0
#!/usr/bin/shN -> interpreter 0
#!bin/shN -> interpreter 0
#!N/bin/shN -> interpreter 0
# !/bin/shN -> interpreter 0
#/bin/shN -> interpreter 0
 #!/bin/shN -> interpreter 0
N#!/bin/shN -> interpreter 0
set -eN -> interpreter 0
'N -> interpreter 0
Z -> nul 0
aZZ -> nul 1
#!/bin/shNZ -> nul 10
#!/bin/shN& 'Z -> nul 13
#!/bin/shN#Z -> nul 11
#!/bin/shN'Z' -> nul 11
#!/bin/zshNZ -> nul 11
#!/bin/sh ZN -> nul 10
#!/bin/shNecho 'aN -> open-quote 15
#!/bin/shNcat <<EOFNxNEOFN -> heredoc 14"#;

// A maintainer script as debhelper's templates have it.
pub const TEMPLATE: &str = r#"#!/bin/sh
set -e
case "$1" in
  configure)
    mkdir -p /var/lib/foo
  ;;
  abort-upgrade|abort-remove|abort-deconfigure)
  ;;
  *)
    echo "postinst called with unknown argument \`$1'" >&2
    exit 1
  ;;
esac
exit 0
"#;

pub const TEMPLATE_TOKENS: &str = "10:[set] 14:[-e] 16:nl 17:[case] 22:\"$1\" 27:[in] 29:nl \
32:[configure] 41:) 42:nl 47:[mkdir] 53:[-p] 56:[/var/lib/foo] 68:nl 71:;; 73:nl \
76:[abort-upgrade] 89:| 90:[abort-remove] 102:| 103:[abort-deconfigure] 120:) 121:nl 124:;; 126:nl \
129:[*] 130:) 131:nl 136:[echo] 141:<postinst called with unknown argument `>\"$1\"<'> 187:>&2 190:nl \
195:[exit] 200:[1] 201:nl 204:;; 206:nl 207:[esac] 211:nl 212:[exit] 217:[0] 218:nl";

// Substitutions inside one another: what opens one, how many times, and the fault where what is left follows. The
// first of these begins at 10; a `$(` takes two bytes, and one in double quotes three.
pub const OPENED: &[(&str, u32, &str, &str)] = &[
    ("$(", 64, "", "open-substitution 136"),
    ("$(", 64, "a", "open-substitution 136"),
    ("$(", 64, "a)", "open-substitution 134"),
    ("$(", 64, "((", "arith 136"),
    ("$(", 64, "$((", "arith 138"),
    ("$(", 64, "$()", "deep 138"),
    ("$(", 64, "a $(", "deep 140"),
    ("$(", 64, " ((a)", "arith 139"),
    ("$(", 64, "~$(", "deep 139"),
    ("$(", 64, "$0", "param 138"),
    ("$(", 64, "\"", "open-quote 138"),
    ("$(", 65, "", "deep 138"),
    ("$(", 65, "a)", "deep 138"),
    ("$(", 63, "$(a) $(b) $($(", "deep 148"),
    ("$(", 200, "'", "deep 138"),
    ("\"$(", 64, "", "open-substitution 200"),
    ("\"$(", 64, "\"", "open-quote 202"),
    ("\"$(", 64, "$((", "arith 202"),
    ("\"$(", 64, "\"$((", "arith 203"),
    ("\"$(", 65, "", "deep 203"),
    ("\"$(", 65, "a)\"", "deep 203"),
];
