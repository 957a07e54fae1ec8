//! How a page looks.

ghost use Rattle.std.specs.Prelude.{◌≡◌, ◌++◌, OnOk};
ghost use Rattle.explanation_pages.specs.Styles.{colours_style, page_style, groups_style, tables_style, media_style, style};

use crate::joined::{put_five, put_four, put_seven, put_two};
use script_names::{Bytes, Memory};

// Adds how the colours, light and dark look.
#[tactic(auto, unfolding(crate::specs::Styles::colours_style))]
fn put_colours(text: &mut Bytes) -> Result<(), Memory>
    ensures { OnOk result (text.new ≡ text.old ++ colours_style) }
{
    put_four(
        text,
        b":root{color-scheme:light dark;--ink:#1c1c21;--paper:#fff;--soft:#f3f3f6;--edge:#d5d5dc;--dim:#5f5f6b;\n",
        b"--bad:#a8201a;--open:#7a4f00;--good:#1b6430;--link:#0b4fc0;--mark:#fff3c4}\n",
        b"@media (prefers-color-scheme:dark){:root{--ink:#e8e8ec;--paper:#17171b;--soft:#222228;--edge:#3c3c46;--dim:#a2a2ae;\n",
        b"--bad:#ff9a91;--open:#f0b95a;--good:#84d79a;--link:#93bbff;--mark:#4a3d10}}\n",
    )
}

// Adds how the page look.
#[tactic(auto, unfolding(crate::specs::Styles::page_style))]
fn put_page(text: &mut Bytes) -> Result<(), Memory>
    ensures { OnOk result (text.new ≡ text.old ++ page_style) }
{
    put_four(
        text,
        b"body{margin:0 auto;max-width:76rem;padding:1rem;font:1rem/1.5 system-ui,sans-serif;color:var(--ink);background:var(--paper)}\n",
        b"h1{font-size:1.5rem;overflow-wrap:anywhere}h2{font-size:1.25rem;margin:0}a{color:var(--link)}p{margin:.5rem 0}\n",
        b"section{margin:2rem 0;padding-top:1rem;border-top:2px solid var(--edge)}footer{border-top:2px solid var(--edge)}\n",
        b".failing{color:var(--bad)}.undecided{color:var(--open)}.well{color:var(--good)}\n",
    )
}

// Adds how groups and their texts look.
#[tactic(auto, unfolding(crate::specs::Styles::groups_style))]
fn put_groups(text: &mut Bytes) -> Result<(), Memory>
    ensures { OnOk result (text.new ≡ text.old ++ groups_style) }
{
    put_seven(
        text,
        b"details{margin:.75rem 0;padding:.5rem .75rem;border:1px solid var(--edge);border-left:.3rem solid;border-radius:.3rem}\n",
        b"details.script{border-left-color:var(--edge);padding:.5rem 0 0}details.script>summary{padding:0 .75rem .5rem}\n",
        b"summary{cursor:pointer;font-weight:600;overflow-wrap:anywhere}details>p,details>ul,details>pre{color:var(--ink)}\n",
        b"details a{overflow-wrap:anywhere;scroll-margin-top:5rem}\n",
        b"pre,td:last-child,code{font-family:ui-monospace,monospace;font-size:.875rem;white-space:pre-wrap;overflow-wrap:anywhere;tab-size:4}\n",
        b"pre{margin:.5rem 0;padding:.75rem;background:var(--soft);border-radius:.3rem}\n",
        b".made{color:var(--good)}.taken{color:var(--bad)}.changed{color:var(--open)}.decides{font-weight:700}\n",
    )
}

// Adds how scripts look.
#[tactic(auto, unfolding(crate::specs::Styles::tables_style))]
fn put_tables(text: &mut Bytes) -> Result<(), Memory>
    ensures { OnOk result (text.new ≡ text.old ++ tables_style) }
{
    put_five(
        text,
        b"table{border-collapse:collapse;width:100%;font-size:.9rem}caption{text-align:left;padding:0 .75rem;color:var(--dim)}\n",
        b"th,td{padding:.1rem .5rem;text-align:left;vertical-align:top}thead th{border-bottom:1px solid var(--edge);font-size:.8rem}\n",
        b"tbody th,td:nth-child(2){text-align:right;font-weight:400;color:var(--dim);font-variant-numeric:tabular-nums}\n",
        b".acts td:nth-child(2){color:var(--ink);font-weight:700}.acts{background:var(--soft)}.left{color:var(--dim)}td a{white-space:nowrap}\n",
        b"td:last-child{width:100%}tr:target,a:target{background:var(--mark)}\n",
    )
}

// Adds how narrow windows and paper look.
#[tactic(auto, unfolding(crate::specs::Styles::media_style))]
fn put_media(text: &mut Bytes) -> Result<(), Memory>
    ensures { OnOk result (text.new ≡ text.old ++ media_style) }
{
    put_two(
        text,
        b"@media (max-width:40rem){body{padding:.5rem}th,td{padding:.1rem .25rem}caption{padding:0 .25rem}}\n",
        b"@media print{body{max-width:none;padding:0;font-size:.8rem}details{break-inside:auto}tr{break-inside:avoid}}\n",
    )
}

/// Adds how a page looks.
#[tactic(auto, unfolding(crate::specs::Styles::style))]
pub fn put_style(text: &mut Bytes) -> Result<(), Memory>
    ensures { OnOk result (text.new ≡ text.old ++ style) }
{
    put_colours(text)?;
    put_page(text)?;
    put_groups(text)?;
    put_tables(text)?;
    put_media(text)
}
