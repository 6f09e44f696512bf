//! Whole checks whose conditions are printed as objects, and checks that print a version alone.

use crate::tests::checks::NINE;
use crate::tests::runs::{Asked, MORE, NOTHING, Row, SEVEN, end_so};
use krl_types::KrlFault;
use run_faults::Cause;
use test_fixtures::GITHUB_LINE;

const OBJECTS: [Row; 6] = [
    // As JSON each condition has an object, and a list that may revoke nobody has one fewer.
    (
        Asked {
            json: true,
            ..NOTHING
        },
        b"{\"condition\":\"openssh\",\"passed\":true,\"list\":\"l\"}
{\"condition\":\"empty\",\"passed\":true,\"list\":\"l\"}
{\"condition\":\"slow\",\"passed\":true,\"list\":\"l\",\"cas\":0,\"most\":4000}
{\"status\":\"done\",\"passed\":true}\n",
        0,
        None,
    ),
    (
        Asked {
            list: Ok(GITHUB_LINE),
            other: Some(Ok(SEVEN)),
            base: Some(Ok(SEVEN)),
            moment: Some(NINE),
            max_age: Some(60),
            keep: &["none"],
            canary: &["key"],
            allow_empty: true,
            json: true,
            ..NOTHING
        },
        b"{\"condition\":\"openssh\",\"passed\":true,\"list\":\"l\"}
{\"condition\":\"slow\",\"passed\":true,\"list\":\"l\",\"cas\":0,\"most\":4000}
{\"condition\":\"version\",\"passed\":false,\"list\":\"l\",\"why\":\"a plain list has no version\"}
{\"condition\":\"age\",\"passed\":false,\"list\":\"l\",\"why\":\"a plain list has no date\"}
{\"condition\":\"lost\",\"passed\":true,\"list\":\"l\",\"other\":\"b\",\"entries\":0}
{\"file\":\"none\",\"status\":\"unread\",\"fault\":\"file 1 Open\",\
\"why\":\"No such file or directory\"}
{\"condition\":\"keep\",\"passed\":false,\"file\":\"none\",\"keys\":0,\"revoked\":0,\"unread\":1}
{\"condition\":\"canary\",\"passed\":true,\"file\":\"key\",\"keys\":1,\"revoked\":1,\"unread\":0}
{\"status\":\"done\",\"passed\":false}\n",
        255,
        None,
    ),
    (
        Asked {
            base: Some(Ok(MORE)),
            json: true,
            ..NOTHING
        },
        b"{\"condition\":\"openssh\",\"passed\":true,\"list\":\"l\"}
{\"condition\":\"empty\",\"passed\":true,\"list\":\"l\"}
{\"condition\":\"slow\",\"passed\":true,\"list\":\"l\",\"cas\":0,\"most\":4000}
{\"change\":\"removed\",\"ca\":\"all\",\"serial\":[\"100\",\"101\"]}
{\"condition\":\"lost\",\"passed\":false,\"list\":\"l\",\"other\":\"b\",\"entries\":1}
{\"status\":\"done\",\"passed\":false}\n",
        1,
        None,
    ),
    // A check that is stopped has no last object.
    (
        Asked {
            canary: &["large"],
            json: true,
            ..NOTHING
        },
        b"{\"condition\":\"openssh\",\"passed\":true,\"list\":\"l\"}
{\"condition\":\"empty\",\"passed\":true,\"list\":\"l\"}
{\"condition\":\"slow\",\"passed\":true,\"list\":\"l\",\"cas\":0,\"most\":4000}\n",
        255,
        Some(("large", None, Cause::NoMemory)),
    ),
    // The version alone.
    (
        Asked {
            list: Ok(SEVEN),
            print_version: true,
            ..NOTHING
        },
        b"7\n",
        0,
        None,
    ),
    (
        Asked {
            list: Ok(b"SSHKRL\n\0"),
            print_version: true,
            ..NOTHING
        },
        b"",
        255,
        Some(("l", None, Cause::Krl(KrlFault::EndsEarly))),
    ),
];

#[test]
fn each_row(rt: HostRuntime) {
    end_so(&rt, rt.alloc(), &OBJECTS);
}
