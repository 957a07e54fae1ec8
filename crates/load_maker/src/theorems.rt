//! What holds of made packages.

ghost use Rattle.load_maker.specs.Laws.{OnePackage, EachPackage};

/// Of a number there is one made package.
pub fn one_package()
    ensures { OnePackage }
{}

/// Of each number up to `MOST_LOAD` there is one: the text of its postinst is an accepted script.
pub fn each_package()
    ensures { EachPackage }
{}
