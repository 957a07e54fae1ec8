ghost use Rattle.std.specs.Prelude.{◌≡◌, IfOk};
ghost use Rattle.shell_to_colis.specs.Translated.{redirect_to, redirected_to};

use colis_syntax::Stmt;
use script_names::{Boxed as Box, Memory};
use shell_syntax::Redirect;
use std::alloc::Global;

// A statement under one redirection.
fn under(alloc: Global, at: u32, redirect: Redirect, body: Stmt) -> Result<Stmt, Memory>
    ensures { IfOk result (λ stmt. stmt ≡ redirect_to at redirect body) }
{
    match redirect {
        Redirect::OutNull => Ok(Stmt::Quiet(Box::new(alloc, body)?)),
        Redirect::OutToErr => Ok(Stmt::Quiet(Box::new(alloc, body)?)),
        Redirect::ErrToOut => Ok(Stmt::Err {
            at,
            body: Box::new(alloc, body)?,
        }),
        Redirect::ErrNull => Ok(body),
        Redirect::InNull => Ok(body),
    }
}

/// A statement under redirections, the first of which is outside.
pub(crate) fn redirected(
    alloc: Global,
    at: u32,
    redirects: &[Redirect],
    body: Stmt,
) -> Result<Stmt, Memory>
    ensures { IfOk result (λ stmt. stmt ≡ redirected_to at redirects.now body) }
{
    let mut stmt = body;
    let mut left = redirects;
    while let [rest @ .., last] = left {
        stmt = under(alloc, at, *last, stmt)?;
        left = rest;
    }
    Ok(stmt)
}
