//! A login with the lines of texts that explain why it is revoked, and the name of its authority
//! (krl(1), krl logins and JSON).

use crate::tests::outcomes::CERTIFICATE;
use crate::tests::texts::{reasons_of, said_with};
use audit_text::Format;
use krl_entries::Reason;
use ssh_wire::Bytes;
use std::alloc::Global;
use std::process::Abort;
use text_index::{Explanation, TextLine};

// The reasons of the answer. A line gives the first one.
const REASONS: &[Reason] = &[Reason::Serial, Reason::KeyId];

// What explains it, with this name of the authority.
fn explanation<'t>(
    rt: &impl Abort,
    alloc: Global,
    line: TextLine<'t>,
    authority: Option<Bytes>,
) -> Option<Explanation<'t>> {
    Some(Explanation {
        lines: Vec::from_slice(alloc, &[line]).expect(rt, "there is memory"),
        unnamed: reasons_of(&[Reason::KeyId]),
        authority,
    })
}

// The line of a text.
const LINE: TextLine<'static> = TextLine {
    file: "revoked.txt",
    number: 2,
    text: b"@user-ca serial: 5 # OPS-1",
};

const TEXT: &[u8] = b"auth.log:3: revoked: \
ED25519-CERT SHA256:RE0ZAsYmhXCrq75OR/3QxG+eyUgI1rLkxQpkbYWGCGI by serial 5 of CA user-ca, \
by key ID \"bob\" of CA user-ca: root from 127.0.0.1 (ID bob)
  revoked.txt:2: @user-ca serial: 5 # OPS-1
  no line of the texts names it by key ID \"bob\" of CA user-ca
";

const UNNAMED: &[u8] = b"auth.log:3: revoked: \
ED25519-CERT SHA256:RE0ZAsYmhXCrq75OR/3QxG+eyUgI1rLkxQpkbYWGCGI by serial 5 of CA \
SHA256:11kQQXkjpRxKIH3m94KRTIwYUOxGz9hdeAQwIaielZ0, by key ID \"bob\" of CA \
SHA256:11kQQXkjpRxKIH3m94KRTIwYUOxGz9hdeAQwIaielZ0: root from 127.0.0.1 (ID bob)
  revoked.txt:2: @user-ca serial: 5 # OPS-1
  no line of the texts names it by key ID \"bob\" of CA \
SHA256:11kQQXkjpRxKIH3m94KRTIwYUOxGz9hdeAQwIaielZ0
";

const OBJECT: &[u8] = b"{\"file\":\"auth.log\",\"line\":3,\"status\":\"revoked\",\
\"type\":\"ED25519-CERT\",\"fingerprint\":\"SHA256:RE0ZAsYmhXCrq75OR/3QxG+eyUgI1rLkxQpkbYWGCGI\",\
\"user\":\"root\",\"from\":\"127.0.0.1\",\"time\":\"Nov 30 18:38:52 vm sshd[31141]: \",\
\"step\":\"accepted\",\"certificate\":{\"serial\":\"5\",\"id\":\"bob\",\
\"authority\":\"SHA256:11kQQXkjpRxKIH3m94KRTIwYUOxGz9hdeAQwIaielZ0\"},\
\"reasons\":[{\"by\":\"serial\",\"serial\":\"5\",\
\"authority\":\"SHA256:11kQQXkjpRxKIH3m94KRTIwYUOxGz9hdeAQwIaielZ0\",\"name\":\"user-ca\"},\
{\"by\":\"id\",\"id\":\"bob\",\
\"authority\":\"SHA256:11kQQXkjpRxKIH3m94KRTIwYUOxGz9hdeAQwIaielZ0\",\"name\":\"user-ca\"}],\
\"entries\":[{\"file\":\"revoked.txt\",\"line\":2,\"text\":\"@user-ca serial: 5 # OPS-1\"}],\
\"unnamed\":[{\"by\":\"id\",\"id\":\"bob\",\
\"authority\":\"SHA256:11kQQXkjpRxKIH3m94KRTIwYUOxGz9hdeAQwIaielZ0\",\"name\":\"user-ca\"}]}
";

#[test]
fn lines_explain_logins(rt: HostRuntime) {
    let alloc = rt.alloc();
    for (form, wanted) in [(Format::Text, TEXT), (Format::Json, OBJECT)] {
        let name = Vec::from_slice(alloc, b"user-ca").expect(&rt, "there is memory");
        let named = explanation(&rt, alloc, LINE, Some(Bytes::from_vec(name)));
        let found = said_with(&rt, alloc, form, CERTIFICATE, REASONS, &named);
        assert_eq!(rt; found.as_slice(), wanted);
    }
    let unnamed = explanation(&rt, alloc, LINE, None);
    let found = said_with(&rt, alloc, Format::Text, CERTIFICATE, REASONS, &unnamed);
    assert_eq!(rt; found.as_slice(), UNNAMED);
}
