use crate::plans::is_planned;

// Calls of `unlink`, `install -d`, `chmod`, `chown`, `chgrp`, `cp`, `basename` and `dirname`, and what each comes to.
const ROWS: &str = "unlink /a -> ;,Remove /a
unlink a/b -> ;,Remove /a/b
unlink /a/ -> ;,Remove /a/
unlink -> call
unlink /a /b -> call
unlink / /b -> root
unlink /a '' -> call
unlink '' -> empty
unlink .. -> dotdot
unlink . -> dot
unlink @65 -> long
unlink @nul -> call
unlink -f /a -> call
unlink -- /a -> ;,Remove /a
unlink -- -f -> ;,Remove /-f
unlink /a -- -> call
unlink - -> ;,Remove /-
install -d /a -> ;,EnsureDir /a
install -d /a/b /c -> ;,EnsureDir /a,EnsureDir /a/b;,EnsureDir /c
install -d /a/ -> ;,EnsureDir /a/
install -d -m 755 /a -> ;,EnsureDir /a
install -m 755 -d /a -> ;,EnsureDir /a
install -d -m 0 /a -> ;,EnsureDir /a
install -d -m 4755 /a -> ;,EnsureDir /a
install -d -m 07777 /a -> call
install -d -m 8 /a -> call
install -d -m 75x /a -> call
install -d -m u+x /a -> call
install -d -m u=rwx,go=rx /a -> call
install -d -m '' /a -> call
install -d -m -> call
install -d -m 755 -> call
install -d -> call
install -> call
install -d -d /a -> ;,EnsureDir /a
install -m 755 -m 700 -d /a -> ;,EnsureDir /a
install -d -m755 /a -> call
install -dm 755 /a -> call
install -dv /a -> call
install -d -v /a -> call
install -d -o root /a -> call
install -d -g root /a -> call
install -d --mode=755 /a -> call
install -m 755 /a -> call
install -m 755 /a /b -> call
install /a /b -> call
install /a -d /b -> call
install /a -d -> call
install -d /a -m 755 -> call
install -d /a -> ;,EnsureDir /a
install -d -- /a -> ;,EnsureDir /a
install -- -d /a -> call
install -d -- -m 755 -> ;,EnsureDir /-m;,EnsureDir /755
install -d -m -- /a -> call
install -d -- -> call
install -d '' -> empty
install -d / -> root
install -d /a/.. -> dotdot
install -d /a / -> root
install -d @long -> long
install -d - -> ;,EnsureDir /-
chmod 755 /a -> ;,Attr /a
chmod 0755 /a -> ;,Attr /a
chmod 0 /a -> ;,Attr /a
chmod 7 /a /b/c -> ;,Attr /a;,Attr /b/c
chmod 644 /a/ -> ;,Attr /a/
chmod 00755 /a -> call
chmod 8 /a -> call
chmod 789 /a -> call
chmod 75a /a -> call
chmod '' /a -> call
chmod u+x /a -> ;,Attr /a
chmod +x /a -> ;,Attr /a
chmod a+rX /a -> ;,Attr /a
chmod ugoa+rwxXst /a -> ;,Attr /a
chmod u+rw-x /a -> ;,Attr /a
chmod u+r+w+x /a -> ;,Attr /a
chmod uu+x /a -> ;,Attr /a
chmod g-w,o-rwx /a -> ;,Attr /a
chmod u=rwx,go=rx /a -> ;,Attr /a
chmod o= /a -> ;,Attr /a
chmod = /a -> ;,Attr /a
chmod + /a -> ;,Attr /a
chmod +t /a -> ;,Attr /a
chmod g+s /a -> ;,Attr /a
chmod =,= /a -> ;,Attr /a
chmod u+-=x /a -> ;,Attr /a
chmod u+q /a -> call
chmod u /a -> call
chmod ux /a -> call
chmod x+u /a -> call
chmod u=g /a -> call
chmod u+x, /a -> call
chmod ,u+x /a -> call
chmod u+x,,g+x /a -> call
chmod u+x,g /a -> call
chmod u+xg+x /a -> call
chmod u+755 /a -> call
chmod =755 /a -> call
chmod 755,u+x /a -> call
chmod U+x /a -> call
chmod u+x.g+x /a -> call
chmod -x /a -> call
chmod -R 755 /a -> call
chmod -- 755 /a -> ;,Attr /a
chmod -- -x /a -> ;,Attr /a
chmod -- -rw,+x /a -> ;,Attr /a
chmod -- --x /a -> ;,Attr /a
chmod -- 755 -R -> ;,Attr /-R
chmod 755 -R /a -> call
chmod 755 -- /a -> call
chmod 755 /a -v -> call
chmod -> call
chmod 755 -> call
chmod -- -> call
chmod u+x -> call
chmod /a -> call
chmod /a 755 -> call
chmod 755 '' -> empty
chmod 755 / -> root
chmod 755 . -> dot
chmod 755 .. /a -> dotdot
chmod 755 /a '' -> empty
chmod 755 @65 -> long
chmod 755 @nul -> call
chmod 755 - -> ;,Attr /-
chmod 8 '' -> call
chown root /a -> ;,Attr /a
chown root:root /a -> ;,Attr /a
chown 0 /a -> ;,Attr /a
chown 0:0 /a /b -> ;,Attr /a;,Attr /b
chown root:0 /a -> ;,Attr /a
chown 1000:root /a -> ;,Attr /a
chown 123456789 /a -> ;,Attr /a
chown 1234567890 /a -> call
chown 1:123456789 /a/ -> ;,Attr /a/
chown 1:1234567890 /a -> call
chown www-data /a -> call
chown root:www-data /a -> call
chown www-data:root /a -> call
chown root: /a -> call
chown :root /a -> call
chown : /a -> call
chown root:root:root /a -> call
chown root.root /a -> call
chown Root /a -> call
chown roots /a -> call
chown '' /a -> call
chown 0x1 /a -> call
chown +1 /a -> call
chown -R root /a -> call
chown -h root /a -> call
chown -- root /a -> ;,Attr /a
chown -- root:0 -h -> ;,Attr /-h
chown root -h /a -> call
chown root /a -h -> call
chown root -> call
chown -> call
chown root '' -> empty
chown root / -> root
chown root /a/. -> dot
chown www-data / -> call
chgrp root /a -> ;,Attr /a
chgrp 0 /a /b -> ;,Attr /a;,Attr /b
chgrp 999999999 /a -> ;,Attr /a
chgrp 0000000000 /a -> call
chgrp adm /a -> call
chgrp root:root /a -> call
chgrp '' /a -> call
chgrp -R root /a -> call
chgrp -- root /a -> ;,Attr /a
chgrp root -> call
chgrp -> call
chgrp root .. -> dotdot
cp /a /b -> ;,Copy /a /b
cp a b/c -> ;,Copy /a /b/c
cp -f /a /b -> ;,Copy /a /b
cp -p /a /b -> ;,Copy /a /b
cp -fp /a /b -> ;,Copy /a /b
cp -f -p /a /b -> ;,Copy /a /b
cp -r /a /b -> ;,CopyDeep /a /b
cp -R /a /b -> ;,CopyDeep /a /b
cp -a /a /b -> ;,CopyDeep /a /b
cp -pR /a /b -> ;,CopyDeep /a /b
cp -aa /a /b -> ;,CopyDeep /a /b
cp -f -a -p /a /b -> ;,CopyDeep /a /b
cp -rf -- /a /b -> ;,CopyDeep /a /b
cp -- -a /b -> ;,Copy /-a /b
cp -n /a /b -> call
cp -v /a /b -> call
cp -av /a /b -> call
cp -d /a /b -> call
cp -i /a /b -> call
cp -s /a /b -> call
cp -al /a /b -> call
cp --archive /a /b -> call
cp /a -r /b -> call
cp /a /b -r -> call
cp /a -- /b -> call
cp -> call
cp -a -> call
cp /a -> call
cp -r /a -> call
cp /a /b /c -> call
cp -a /a /b /c -> call
cp /a/ /b -> slash
cp /a /b/ -> slash
cp -r /a/ /b/ -> slash
cp '' /b -> empty
cp /a '' -> empty
cp / /b -> root
cp /a / -> root
cp -r / /b -> root
cp .. /b -> dotdot
cp /a . -> dot
cp /a/ -> slash
cp '' -> empty
cp /a /a -> same
cp -a /a /a -> same
cp /a/b /a -> same
cp -r /a/b /a -> same
cp /a/b/c /a -> ;,Copy /a/b/c /a
cp /a /a/b -> ;,Copy /a /a/b
cp -r /a /a/b -> same
cp -R /a /a/b/c -> same
cp -a /a /ab -> ;,CopyDeep /a /ab
cp -a /a/b /a/c -> ;,CopyDeep /a/b /a/c
cp /a //./a -> same
cp /a /a /c -> same
cp /a/ /a -> slash
cp /a /a/ -> slash
cp @64 /a -> ;,Copy many /a
cp /a @64 -> long
cp /a @63 -> ;,Copy /a many
cp /a @64 /c -> long
cp @64 @64 -> same
cp @65 /a -> long
cp /a @long -> long
cp @nul /a -> call
basename a -> a|
basename /a/b -> b|
basename a/b/c.d -> c.d|
basename a/ -> a|
basename /a/b/ -> b|
basename / -> /|
basename // -> call
basename a//b -> call
basename //a -> call
basename a// -> call
basename '' -> call
basename . -> .|
basename .. -> ..|
basename ./a -> a|
basename /a/.. -> ..|
basename a.conf .conf -> a|
basename /x/a.conf .conf -> a|
basename /x/a.conf/ .conf -> a|
basename .conf .conf -> .conf|
basename a.conf a.conf -> a.conf|
basename a.conf xa.conf -> a.conf|
basename a.conf conf -> a.|
basename a.conf .con -> a.conf|
basename a.conf '' -> a.conf|
basename aa a -> a|
basename / / -> /|
basename /a /a -> a|
basename a/ / -> a|
basename a '*' -> a|
basename -> call
basename a b c -> call
basename -a a -> call
basename -s .c a.c -> call
basename a -b -> call
basename a -- -> call
basename -- a -> a|
basename -- -a -> -a|
basename -- a-b -b -> a|
basename -- -> call
basename - -> -|
basename a// b -> call
basename a\\b -> a\\b|
dirname a -> .|
dirname a/ -> .|
dirname a/b -> a|
dirname a/b/ -> a|
dirname /a -> /|
dirname /a/ -> /|
dirname /a/b -> /a|
dirname /a/b/c/ -> /a/b|
dirname / -> /|
dirname // -> call
dirname a//b -> call
dirname /a// -> call
dirname '' -> call
dirname . -> .|
dirname .. -> .|
dirname ../a -> ..|
dirname ./a/b -> ./a|
dirname -> call
dirname a b -> call
dirname -z a -> call
dirname -- -a/b -> -a|
dirname -- a -> .|
dirname a -- -> call
dirname -- -> call
dirname - -> .|";

#[test]
fn plans_further_rows(rt: HostRuntime) {
    for row in ROWS.lines() {
        assert!(rt; matches!(is_planned(rt.alloc(), row), Ok(true)), "{row}");
    }
}
