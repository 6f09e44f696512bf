//! Keys as lines of files, without their comments: those of the folder `demo`.

/// Alice's key. Its fingerprint and those below are what `ssh-keygen -l` prints.
pub const ALICE: &str =
    "ssh-ed25519 AAAAC3NzaC1lZDI1NTE5AAAAIOYUDputd6M6v/apAWVamVjkTaHJqGoWEmh4spiW+2CM";

/// The fingerprint of Alice's key.
pub const ALICE_PRINT: &str = "SHA256:cu4S2hE6TU5xPea2Cayw4KLXmcuG/Zdo6e88wItmXUo";

/// Bob's certificate: its serial number is 8, and its key ID is bob.
pub const BOB: &str =
    "ssh-ed25519-cert-v01@openssh.com AAAAIHNzaC1lZDI1NTE5LWNlcnQtdjAxQG9wZW5zc2guY29tAAA\
AIC3AGHWKYdef97NionR1Qwmk20c9KVbGNTIjH+/EJwQ9AAAAICiPJmCXjR9sCdQVR8MN3YOJmwWjejS58eu\
ftc+DDSIdAAAAAAAAAAgAAAABAAAAA2JvYgAAABEAAAADYm9iAAAABmJhY2t1cAAAAAAAAAAA//////////8\
AAAAnAAAADWZvcmNlLWNvbW1hbmQAAAASAAAADnJzeW5jIC0tc2VydmVyAAAAcAAAABVwZXJtaXQtWDExLWZ\
vcndhcmRpbmcAAAAAAAAAF3Blcm1pdC1hZ2VudC1mb3J3YXJkaW5nAAAAAAAAABZwZXJtaXQtcG9ydC1mb3J\
3YXJkaW5nAAAAAAAAAA5wZXJtaXQtdXNlci1yYwAAAAAAAAAAAAAAMwAAAAtzc2gtZWQyNTUxOQAAACAQYS5\
MK7YpTEXrGrEZBhM6YtyVF2dTIYzBrpgwRYHCCgAAAFMAAAALc3NoLWVkMjU1MTkAAABAZAz3eTCKn/hfTsu\
thXCjdMrPfyx7QcXx09QKtrTNhS2sAjWy1W3WFPLm4EFZcEUQJoxUstginh5ReWT/H7FKBA==";

/// The fingerprint of Bob's plain key.
pub const BOB_PRINT: &str = "SHA256:z3enkvIf3mPm2ECH8lxkCDColMjYcA0vCfL7sKS4GBw";

/// The key of the authority of Bob's certificate.
pub const AUTHORITY: &str =
    "ssh-ed25519 AAAAC3NzaC1lZDI1NTE5AAAAIBBhLkwrtilMResasRkGEzpi3JUXZ1MhjMGumDBFgcIK";

/// The fingerprint of that key.
pub const AUTHORITY_PRINT: &str = "SHA256:hjYP5qrwcNMfU0dMK+c5Yaqnh60atUwtNlHqX4lNNtg";
