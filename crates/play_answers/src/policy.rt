// The fields of every answer.
ghost use Rattle.std.specs.Prelude.{◌≡◌, ◌++◌, OnOk, []};
ghost use Rattle.http_server.specs.Response.{IsResponse, IsBlank, fields_of};
ghost use Rattle.play_answers.specs.Policy.{policy};

use crate::page::POLICY;
use http::{HeaderName, HeaderValue};
use http_server::Response;
use std::alloc::AllocError;

/// Gives a blank answer the fields that say what the page may do, and that nobody else is to read it or to keep it.
pub fn add_policy(response: &mut Response) -> Result<(), AllocError>
    requires { IsBlank response.old }
    ensures { OnOk result (IsResponse 200 policy [] response.new) }
{
    response.add_header(
        HeaderName::from_static("content-security-policy"),
        HeaderValue::from_static(POLICY),
    )?;
    response.add_header(
        HeaderName::from_static("x-content-type-options"),
        HeaderValue::from_static("nosniff"),
    )?;
    response.add_header(
        HeaderName::from_static("cache-control"),
        HeaderValue::from_static("no-store"),
    )?;
    response.add_header(
        HeaderName::from_static("referrer-policy"),
        HeaderValue::from_static("no-referrer"),
    )?;
    response.add_header(
        HeaderName::from_static("cross-origin-opener-policy"),
        HeaderValue::from_static("same-origin"),
    )?;
    response.add_header(
        HeaderName::from_static("cross-origin-resource-policy"),
        HeaderValue::from_static("same-origin"),
    )
}
