// Texts of clauses.
pub(super) const WHOLE: &str = r"clause start v0 now v0|
clause start v0 now v1|
clause start v4294967295 now v0|
clause start v0 now v2|entry v0 a\x20b v12|kind v12 reg,dir|fence v1 {bin,\x7b\x2c\x7d}|notempty v3|target v4 \e|
clause start v0 now v2|similar v2 {etc} v0|entry v2 etc v1|
clause start v0 now v0|kind v4294967295 -|
clause start v0 now v0|kind v1 absent|kind v1 reg|kind v1 link|kind v1 fifo|kind v1 socket|kind v1 block|kind v1 char|kind v1 dir|
clause start v0 now v0|kind v1 absent,fifo,socket,block,char|kind v1 absent,reg,link,fifo,socket,block,char,dir|
clause start v0 now v0|kind v1 reg,socket|kind v1 fifo,char,dir|kind v1 link,fifo,socket,block|kind v1 socket,block|
clause start v0 now v0|fence v1 {}|fence v1 {a}|fence v1 {b,a}|fence v1 {a,a}|
clause start v0 now v0|similar v1 {} v0|similar v1 {b,a,b} v0|
clause start v0 now v0|target v1 ..|target v1 /a/b|target v1 \x00\x5c\xff|
clause start v0 now v0|entry v0 ... v1|entry v0 \xff v1|entry v0 - v0|
clause start v0 now v0|notempty v0|notempty v0|kind v0 dir|";

// Texts with the word for all four special kinds, and the text that each clause has.
pub(super) const OLDER: &str =
    r"clause start v0 now v0|kind v1 other| -> clause start v0 now v0|kind v1 fifo,socket,block,char|
clause start v0 now v0|kind v1 absent,other| -> clause start v0 now v0|kind v1 absent,fifo,socket,block,char|
clause start v0 now v0|kind v1 other,dir| -> clause start v0 now v0|kind v1 fifo,socket,block,char,dir|
clause start v0 now v0|kind v1 link,other,dir| -> clause start v0 now v0|kind v1 link,fifo,socket,block,char,dir|
clause start v0 now v0|kind v1 absent,reg,link,other,dir| -> clause start v0 now v0|kind v1 absent,reg,link,fifo,socket,block,char,dir|
clause start v0 now v0|kind v1 reg,other|kind v2 fifo| -> clause start v0 now v0|kind v1 reg,fifo,socket,block,char|kind v2 fifo|
clause start v0 now v0|kind v1 socket,char|entry v0 other v1|kind v2 other| -> clause start v0 now v0|kind v1 socket,char|entry v0 other v1|kind v2 fifo,socket,block,char|";

// Texts that tell no clause, each with the reason.
pub(super) const REFUSED: &str = r" ## no bytes
| ## an empty line
clause start v0 now v0 ## no newline at the end
clause start v0 now v0|| ## an empty line at the end
|clause start v0 now v0| ## an empty line in front
clause start v0 now v0||kind v0 dir| ## an empty line between
~clause start v0 now v0| ## a blank in front
clause start v0 now v0~| ## a blank at the end of the head
clause~~start v0 now v0| ## two blanks
clause^start v0 now v0| ## a tab
clause start v0 now v0%| ## a carriage return
Clause start v0 now v0| ## a capital letter
clause v0 now v0| ## no word for the start
clause start v0 v0| ## no word for the tree now
clause now v0 start v0| ## the words changed
start v0 now v0| ## no word for a clause
clause start v0 now| ## no tree now
clause start now v0| ## no start
clause start v0 now v0 v0| ## one word more
clause start 0 now v0| ## no letter
clause start w0 now v0| ## another letter
clause start V0 now v0| ## a capital letter
clause start v now v0| ## no number
clause start v00 now v0| ## a zero in front
clause start v01 now v0| ## a zero in front
clause start v+1 now v0| ## a sign
clause start v-1 now v0| ## a sign
clause start v4294967296 now v0| ## a number above 4294967295
clause start v0 now v99999999999999999999| ## a number far above
clause start v0x now v0| ## a letter behind the number
clause start v0 now v0.| ## a stop behind the number
kind v0 dir| ## no first line
clause start v0 now v0|clause start v0 now v0| ## two first lines
kind v0 dir|clause start v0 now v0| ## the first line is the second
clause start v0 now v0|kind v0 dir ## no newline behind a literal
clause start v0 now v0|kind v0 dir~| ## a blank behind a literal
clause start v0 now v0|~kind v0 dir| ## a blank in front of a literal
clause start v0 now v0|kind v0| ## no kinds
clause start v0 now v0|kind v0 dir,reg| ## kinds in another order
clause start v0 now v0|kind v0 reg,reg| ## a kind twice
clause start v0 now v0|kind v0 file| ## no such kind
clause start v0 now v0|kind v0 special| ## no such kind
clause start v0 now v0|kind v0 pipe| ## no such kind
clause start v0 now v0|kind v0 Fifo| ## a capital letter
clause start v0 now v0|kind v0 socket,fifo| ## kinds in another order
clause start v0 now v0|kind v0 char,block| ## kinds in another order
clause start v0 now v0|kind v0 fifo,link| ## kinds in another order
clause start v0 now v0|kind v0 dir,char| ## kinds in another order
clause start v0 now v0|kind v0 block,block| ## a kind twice
clause start v0 now v0|kind v0 other,fifo| ## the word for the four and one of them
clause start v0 now v0|kind v0 fifo,other| ## the word for the four and one of them
clause start v0 now v0|kind v0 link,other,socket,dir| ## the word for the four and one of them
clause start v0 now v0|kind v0 other,block| ## the word for the four and one of them
clause start v0 now v0|kind v0 other,char| ## the word for the four and one of them
clause start v0 now v0|kind v0 char,other,dir| ## the word for the four and one of them
clause start v0 now v0|kind v0 other,fifo,socket,block,char| ## the word for the four and each of them
clause start v0 now v0|kind v0 other,other| ## the word for the four twice
clause start v0 now v0|kind v0 other,link| ## kinds in another order
clause start v0 now v0|kind v0 dir,other| ## kinds in another order
clause start v0 now v0|kind v0 -,other| ## no kinds and the word for the four
clause start v0 now v0|kind v0 Other| ## a capital letter
clause start v0 now v0|kind v0 Dir| ## a capital letter
clause start v0 now v0|kind v0 reg,| ## a comma at the end
clause start v0 now v0|kind v0 ,reg| ## a comma in front
clause start v0 now v0|kind v0 reg,~dir| ## a blank behind a comma
clause start v0 now v0|kind v0 -,reg| ## no kinds and a kind
clause start v0 now v0|kind v0 --| ## two signs
clause start v0 now v0|kind v0 {reg}| ## braces
clause start v0 now v0|kind 0 reg| ## no letter
clause start v0 now v0|kinds v0 reg| ## another word
clause start v0 now v0|entry v0 a| ## no second variable
clause start v0 now v0|entry v0 v1| ## no name
clause start v0 now v0|entry v0 a v1 v2| ## a third variable
clause start v0 now v0|entry v0 a b v1| ## two names
clause start v0 now v0|entry v0 . v1| ## a dot is no name
clause start v0 now v0|entry v0 .. v1| ## two dots are no name
clause start v0 now v0|entry v0 a/b v1| ## a slash in a name
clause start v0 now v0|entry v0 \e v1| ## a name of no bytes
clause start v0 now v0|entry v0 \x00 v1| ## NUL in a name
clause start v0 now v0|entry v0 \x61 v1| ## a byte that stands for itself
clause start v0 now v0|entry v0 \xFF v1| ## a capital digit
clause start v0 now v0|entry v0 \xf v1| ## one digit
clause start v0 now v0|entry v0 \n v1| ## another escape
clause start v0 now v0|entry v0 a\ v1| ## nothing behind a backslash
clause start v0 now v0|entry v0 a,b v1| ## a comma in a name
clause start v0 now v0|entry v0 {a} v1| ## braces in a name
clause start v0 now v0|entry v0 (a) v1| ## parentheses in a name
clause start v0 now v0|entry v0 a^b v1| ## a tab in a name
clause start v0 now v0|fence v0 a| ## no braces
clause start v0 now v0|fence v0 {a| ## no end
clause start v0 now v0|fence v0 a}| ## no beginning
clause start v0 now v0|fence v0 {a,}| ## a comma at the end
clause start v0 now v0|fence v0 {,a}| ## a comma in front
clause start v0 now v0|fence v0 {a,,b}| ## two commas
clause start v0 now v0|fence v0 {a b}| ## a blank between names
clause start v0 now v0|fence v0 {~a}| ## a blank in front of a name
clause start v0 now v0|fence v0 {{a}}| ## braces twice
clause start v0 now v0|fence v0 {\e}| ## a name of no bytes
clause start v0 now v0|fence v0 {..}| ## two dots are no name
clause start v0 now v0|fence v0| ## no names
clause start v0 now v0|fence {a} v0| ## the words changed
clause start v0 now v0|notempty| ## no variable
clause start v0 now v0|notempty v0 v1| ## two variables
clause start v0 now v0|notempty {}| ## names
clause start v0 now v0|not-empty v0| ## another word
clause start v0 now v0|meets v0| ## another word
clause start v0 now v0|similar v1 {a}| ## no second variable
clause start v0 now v0|similar v1 v0| ## no names
clause start v0 now v0|similar v1 a v0| ## no braces
clause start v0 now v0|similar v1 {a} v0 v2| ## a third variable
clause start v0 now v0|target v0| ## no target
clause start v0 now v0|target v0 a b| ## a blank in a target
clause start v0 now v0|target v0 \x2f| ## a slash stands for itself
clause start v0 now v0|target v0 \e\e| ## no bytes twice
clause start v0 now v0|target v0 a\e| ## no bytes behind a byte
clause start v0 now v0|target v0 {}| ## braces in a target
clause start v0 now v0|# a comment| ## a comment";

// What is answered of a clause, from the variable of its start on, and a tree.
pub(super) const DECIDED: &str = r"covered v0 now v0| on 
covered v0 now v0| on f /a|
covered v0 now v0|kind v0 dir| on 
covered v0 now v0|kind v0 dir| on d /a|f /a/b|
apart v0 now v0|kind v0 reg| on 
apart v0 now v0|kind v0 reg| on f /a|
apart v0 now v0|kind v0 -| on 
unsolved v0 now v1| on 
covered v0 now v0|entry v0 a v1|kind v1 reg| on f /a|
covered v0 now v0|entry v0 a v1|kind v1 reg| on d /b|f /a|
apart v0 now v0|entry v0 a v1|kind v1 reg| on 
apart v0 now v0|entry v0 a v1|kind v1 reg| on d /a|
apart v0 now v0|entry v0 a v1|kind v1 reg| on f /b|
covered v0 now v0|entry v0 a v1|kind v1 absent| on 
covered v0 now v0|entry v0 a v1|kind v1 absent| on f /b|
apart v0 now v0|entry v0 a v1|kind v1 absent| on c /a|
covered v0 now v0|entry v0 a v1|kind v1 absent,dir| on 
covered v0 now v0|entry v0 a v1|kind v1 absent,dir| on d /a|
apart v0 now v0|entry v0 a v1|kind v1 -| on 
apart v0 now v0|entry v0 a v1|kind v1 -| on f /a|
covered v0 now v0|entry v0 a v1|entry v1 b v2|kind v2 other| on d /a|o /a/b|
covered v0 now v0|entry v0 a v1|entry v1 b v2|kind v2 other| on d /a|s /a/b|
covered v0 now v0|entry v0 a v1|entry v1 b v2|kind v2 fifo| on d /a|p /a/b|
covered v0 now v0|entry v0 a v1|entry v1 b v2|kind v2 fifo| on d /a|o /a/b|
apart v0 now v0|entry v0 a v1|entry v1 b v2|kind v2 fifo| on d /a|s /a/b|
covered v0 now v0|entry v0 a v1|entry v1 b v2|kind v2 block,char| on d /a|c /a/b|
apart v0 now v0|entry v0 a v1|entry v1 b v2|kind v2 block,char| on d /a|p /a/b|
covered v0 now v0|entry v0 a v1|kind v1 other|entry v0 b v2|kind v2 fifo| on b /a|p /b|
apart v0 now v0|entry v0 a v1|kind v1 other|entry v0 b v2|kind v2 fifo| on p /a|b /b|
covered v0 now v0|entry v0 a v1|entry v0 b v1| on b /a|b /b|
apart v0 now v0|entry v0 a v1|entry v0 b v1| on b /a|c /b|
apart v0 now v0|entry v0 a v1|entry v1 b v2|kind v2 other| on f /a|
apart v0 now v0|entry v0 a v1|entry v1 b v2|kind v2 other| on d /a|f /a/b|
covered v0 now v1|entry v0 a v1| on d /a|
covered v0 now v1|entry v0 a v1| on d /a|f /a/b|
apart v0 now v1|entry v0 a v1| on 
apart v0 now v1|entry v0 a v1| on f /a|
apart v0 now v1|entry v0 a v1| on l /a b|
covered v0 now v0|fence v0 {a}| on 
covered v0 now v0|fence v0 {a}| on f /a|
covered v0 now v0|fence v0 {a}| on d /a|f /a/b|
apart v0 now v0|fence v0 {a}| on f /b|
apart v0 now v0|fence v0 {a}| on f /a|f /b|
covered v0 now v0|fence v0 {b,a,b}| on f /a|f /b|
covered v0 now v0|fence v0 {b,a,b}| on f /b|
covered v0 now v0|fence v0 {b,a,b}| on 
apart v0 now v0|fence v0 {b,a,b}| on f /a|f /c|
covered v0 now v0|fence v0 {}| on 
apart v0 now v0|fence v0 {}| on f /a|
covered v0 now v0|entry v0 a v1|fence v1 {}| on 
covered v0 now v0|entry v0 a v1|fence v1 {}| on f /a|
covered v0 now v0|entry v0 a v1|fence v1 {}| on d /a|
covered v0 now v0|entry v0 a v1|fence v1 {}| on d /a|f /b|
apart v0 now v0|entry v0 a v1|fence v1 {}| on d /a|f /a/b|
covered v0 now v0|notempty v0| on f /a|
apart v0 now v0|notempty v0| on 
covered v0 now v0|entry v0 a v1|notempty v1| on d /a|f /a/b|
apart v0 now v0|entry v0 a v1|notempty v1| on 
apart v0 now v0|entry v0 a v1|notempty v1| on f /a|
apart v0 now v0|entry v0 a v1|notempty v1| on d /a|
apart v0 now v0|entry v0 a v1|notempty v1| on d /a|f /b|
covered v0 now v0|entry v0 a v1|target v1 x| on l /a x|
apart v0 now v0|entry v0 a v1|target v1 x| on l /a y|
apart v0 now v0|entry v0 a v1|target v1 x| on l /a xx|
apart v0 now v0|entry v0 a v1|target v1 x| on f /a|
apart v0 now v0|entry v0 a v1|target v1 x| on 
covered v0 now v0|entry v0 a v1|target v1 \e| on l /a \e|
covered v0 now v0|entry v0 a v1|entry v0 b v1| on 
covered v0 now v0|entry v0 a v1|entry v0 b v1| on f /a|f /b|
covered v0 now v0|entry v0 a v1|entry v0 b v1| on d /a|d /b|
covered v0 now v0|entry v0 a v1|entry v0 b v1| on d /a|f /a/c|d /b|f /b/c|
apart v0 now v0|entry v0 a v1|entry v0 b v1| on f /a|
apart v0 now v0|entry v0 a v1|entry v0 b v1| on f /a|d /b|
apart v0 now v0|entry v0 a v1|entry v0 b v1| on d /a|f /a/c|d /b|
apart v0 now v0|entry v0 a v1|entry v0 b v1| on l /a x|l /b y|
covered v0 now v0|entry v0 d v1|entry v0 e v2|similar v1 {x} v2| on d /d|d /e|
covered v0 now v0|entry v0 d v1|entry v0 e v2|similar v1 {x} v2| on d /d|f /d/x|d /e|
covered v0 now v0|entry v0 d v1|entry v0 e v2|similar v1 {x} v2| on d /d|f /d/x|d /e|d /e/x|
covered v0 now v0|entry v0 d v1|entry v0 e v2|similar v1 {x} v2| on d /d|f /d/y|d /e|f /e/y|f /e/x|
covered v0 now v0|entry v0 d v1|entry v0 e v2|similar v1 {x} v2| on d /d|f /e|
covered v0 now v0|entry v0 d v1|entry v0 e v2|similar v1 {x} v2| on d /d|f /d/x|
apart v0 now v0|entry v0 d v1|entry v0 e v2|similar v1 {x} v2| on 
apart v0 now v0|entry v0 d v1|entry v0 e v2|similar v1 {x} v2| on f /d|f /e|
apart v0 now v0|entry v0 d v1|entry v0 e v2|similar v1 {x} v2| on f /d|d /e|
apart v0 now v0|entry v0 d v1|entry v0 e v2|similar v1 {x} v2| on d /d|f /d/y|d /e|
apart v0 now v0|entry v0 d v1|entry v0 e v2|similar v1 {x} v2| on d /d|d /e|f /e/y|
apart v0 now v0|entry v0 d v1|entry v0 e v2|similar v1 {x} v2| on d /d|f /d/y|d /e|d /e/y|
apart v0 now v0|entry v0 d v1|entry v0 e v2|similar v1 {x} v2| on d /d|f /d/y|
covered v0 now v0|entry v0 d v1|entry v0 e v2|similar v1 {} v2| on d /d|d /e|
covered v0 now v0|entry v0 d v1|entry v0 e v2|similar v1 {} v2| on d /d|f /d/y|d /e|f /e/y|
apart v0 now v0|entry v0 d v1|entry v0 e v2|similar v1 {} v2| on d /d|f /d/y|d /e|
covered v0 now v0|entry v0 d v1|entry v0 e v2|similar v1 {y,x} v2| on d /d|f /d/x|d /e|f /e/y|
apart v0 now v0|entry v0 d v1|entry v0 e v2|similar v1 {y,x} v2| on d /d|f /d/z|d /e|f /e/y|
covered v0 now v1|kind v1 dir|fence v1 {}| on 
covered v0 now v1|kind v1 dir|fence v1 {}| on f /a|
apart v0 now v1|kind v1 absent| on 
apart v0 now v1|kind v1 absent| on f /a|
apart v0 now v1|kind v1 reg| on 
apart v0 now v1|target v1 x| on 
covered v0 now v0|kind v1 dir|fence v1 {}|kind v1 dir| on 
apart v0 now v0|kind v1 dir|fence v1 {}|notempty v1| on 
covered v0 now v0|kind v1 reg|kind v1 reg,dir| on 
apart v0 now v0|kind v1 reg|kind v1 dir| on 
covered v0 now v0|target v1 x|target v1 x|kind v1 link| on 
apart v0 now v0|target v1 x|target v1 y| on 
covered v0 now v2|kind v1 reg|similar v2 {a} v0|entry v2 a v1| on 
covered v0 now v2|kind v1 reg|similar v2 {a} v0|entry v2 a v1| on f /a|
covered v0 now v2|kind v1 reg|similar v2 {a} v0|entry v2 a v1| on d /a|f /b|
covered v0 now v2|kind v1 reg|similar v2 {a} v0|entry v2 a v1|fence v2 {a}| on 
covered v0 now v2|kind v1 reg|similar v2 {a} v0|entry v2 a v1|fence v2 {a}| on d /a|f /a/b|
apart v0 now v2|kind v1 reg|similar v2 {a} v0|entry v2 a v1|fence v2 {a}| on f /b|
covered v0 now v2|kind v1 reg|similar v2 {a} v0|entry v2 a v1|entry v2 b v3|kind v3 dir| on d /b|
covered v0 now v2|kind v1 reg|similar v2 {a} v0|entry v2 a v1|entry v2 b v3|kind v3 dir| on d /b|f /a|
apart v0 now v2|kind v1 reg|similar v2 {a} v0|entry v2 a v1|entry v2 b v3|kind v3 dir| on 
apart v0 now v2|kind v1 reg|similar v2 {a} v0|entry v2 a v1|entry v2 b v3|kind v3 dir| on d /a|
apart v0 now v2|kind v1 reg|similar v2 {a} v0|entry v2 a v1|entry v2 a v3|kind v3 dir| on 
apart v0 now v2|kind v1 reg|similar v2 {a} v0|entry v2 a v1|entry v2 a v3|kind v3 dir| on d /a|
covered v0 now v3|entry v0 a v1|kind v1 dir|kind v2 absent|similar v3 {a} v0|entry v3 a v2| on d /a|
covered v0 now v3|entry v0 a v1|kind v1 dir|kind v2 absent|similar v3 {a} v0|entry v3 a v2| on d /a|f /b|
covered v0 now v3|entry v0 a v1|kind v1 dir|kind v2 absent|similar v3 {a} v0|entry v3 a v2| on d /a|f /a/b|
apart v0 now v3|entry v0 a v1|kind v1 dir|kind v2 absent|similar v3 {a} v0|entry v3 a v2| on 
apart v0 now v3|entry v0 a v1|kind v1 dir|kind v2 absent|similar v3 {a} v0|entry v3 a v2| on f /a|
covered v0 now v3|entry v0 a v1|kind v1 dir|kind v2 absent|similar v3 {a} v0|entry v3 a v2|fence v3 {b}| on d /a|
covered v0 now v3|entry v0 a v1|kind v1 dir|kind v2 absent|similar v3 {a} v0|entry v3 a v2|fence v3 {b}| on d /a|f /b|
apart v0 now v3|entry v0 a v1|kind v1 dir|kind v2 absent|similar v3 {a} v0|entry v3 a v2|fence v3 {b}| on d /a|f /c|
apart v0 now v3|entry v0 a v1|kind v1 dir|kind v2 absent|similar v3 {a} v0|entry v3 a v2|notempty v3| on d /a|
covered v0 now v2|kind v1 reg|similar v2 {} v1|fence v2 {}| on 
covered v0 now v2|kind v1 reg|similar v2 {} v1|fence v2 {}| on f /a|
covered v0 now v2|kind v1 reg|similar v2 {b,a} v0|entry v2 a v1|entry v2 b v1| on 
covered v0 now v2|kind v1 reg|similar v2 {b,a} v0|entry v2 a v1|entry v2 b v1| on d /a|f /c|
covered v0 now v2|kind v1 reg|similar v2 {a,b} v0|entry v2 a v1|entry v2 b v1|fence v2 {b,a}| on 
covered v0 now v2|kind v1 reg|similar v2 {a,b} v0|entry v2 a v1|entry v2 b v1|fence v2 {b,a}| on d /a|
covered v0 now v2|kind v1 reg|similar v2 {a,a} v0|entry v2 a v1| on 
covered v0 now v2|kind v1 reg|similar v2 {a,a} v0|entry v2 a v1| on d /a|
covered v0 now v2|kind v1 reg|similar v2 {a,a} v0|entry v2 a v1|entry v2 a v1| on 
covered v0 now v2|kind v1 reg|kind v3 absent|similar v2 {a} v0|entry v2 a v1|entry v2 b v3| on 
covered v0 now v2|kind v1 reg|kind v3 absent|similar v2 {a} v0|entry v2 a v1|entry v2 b v3| on f /c|
apart v0 now v2|kind v1 reg|kind v3 absent|similar v2 {a} v0|entry v2 a v1|entry v2 b v3| on f /b|
covered v7 now v9|entry v7 a v3|kind v3 dir|similar v9 {b} v7|entry v9 b v3| on d /a|
covered v7 now v9|entry v7 a v3|kind v3 dir|similar v9 {b} v7|entry v9 b v3| on d /a|f /a/x|f /b|
apart v7 now v9|entry v7 a v3|kind v3 dir|similar v9 {b} v7|entry v9 b v3| on 
apart v7 now v9|entry v7 a v3|kind v3 dir|similar v9 {b} v7|entry v9 b v3| on f /a|
unsolved v0 now v0|kind v1 reg,dir| on f /a|
unsolved v0 now v0|kind v1 link| on f /a|
unsolved v0 now v0|kind v1 other| on f /a|
unsolved v0 now v0|kind v1 socket| on f /a|
unsolved v0 now v0|kind v1 -| on f /a|
unsolved v0 now v0|kind v1 dir| on f /a|
unsolved v0 now v0|kind v1 dir|fence v1 {a}| on f /a|
unsolved v0 now v0|kind v1 dir|fence v0 {}| on f /a|
unsolved v0 now v0|kind v1 dir|kind v1 dir|fence v1 {}| on f /a|
unsolved v0 now v0|entry v1 a v0| on f /a|
unsolved v0 now v0|entry v1 a v2| on f /a|
unsolved v0 now v0|entry v1 a v1| on f /a|
unsolved v0 now v0|fence v1 {}| on f /a|
unsolved v0 now v0|notempty v1| on f /a|
unsolved v0 now v0|similar v1 {a} v0| on f /a|
unsolved v0 now v0|similar v1 {a} v0|entry v1 a v2| on f /a|
unsolved v0 now v0|similar v1 {a} v0|entry v1 a v1| on f /a|
unsolved v0 now v0|similar v1 {a} v0|entry v1 b v0| on f /a|
unsolved v0 now v0|similar v1 {a} v0|entry v0 a v0| on f /a|
unsolved v0 now v0|similar v1 {a} v0|kind v1 dir|entry v1 a v0| on f /a|
unsolved v0 now v0|similar v1 {b,a} v0|entry v1 b v0|entry v1 a v0| on f /a|
unsolved v0 now v0|similar v1 {a,b} v0|entry v1 a v0| on f /a|
unsolved v0 now v0|similar v1 {} v2| on f /a|
unsolved v0 now v0|similar v1 {} v1| on f /a|
unsolved v0 now v0|similar v0 {} v1| on f /a|
unsolved v0 now v0|kind v0 reg|fence v1 {}| on 
unsolved v0 now v2|kind v1 dir|fence v1 {}| on ";
