//! Laws that hold for all settings and users, each the contract of a function that does nothing.
//! `files_of` returns what `files_at` names.

ghost use Rattle.std.specs.Prelude.{◌≡◌, ◌↔◌, ◌++◌, ◌∷◌, ℕ, Bool, Contains, List, Ok, Some, codes};
ghost use Rattle.std.specs.Prelude.{false, filter, true};
ghost use Rattle.std.specs.List.{IsDistinct};
ghost use Rattle.sshd_files.specs.Files.{File, distinct, file, files_at, host_files, is_absent};
ghost use Rattle.sshd_files.specs.Files.{is_same};
ghost use Rattle.sshd_files.specs.Pattern.{Expands, expansion, is_pattern, path_of, patterns_of};
ghost use Rattle.sshd_files.specs.Settings.{Configuration};
ghost use Rattle.sshd_files.specs.Users.{Account, IsEntry, account_at};
ghost use Rattle.sshd_files.specs.Words.{IsFree, split_around};
ghost use Rattle.sshd_files.specs.declared.files.SshdFileKind.TheVariants.{Keys};

/// The line of a user is read as that user, and no other line is.
pub fn user_read_where_spelled()
    ensures { (line : List ℕ) (user : Account)
        → (account_at line ≡ Some user) ↔ IsEntry line user }
{}

/// A text is split at its first separator, and a text without one is not split.
pub fn text_split_at_first()
    ensures { (separator : ℕ) (text front back : List ℕ)
        → (split_around separator text ≡ Some (front, back))
        ↔ ((text ≡ front ++ separator ∷ back) × IsFree separator front) }
{}

/// Each file of a list is once among the distinct ones, where it is first, and no other file is.
pub fn each_file_once()
    ensures same { (one other : File) → (is_same one other ≡ true) ↔ (one ≡ other) }
    ensures members { (files : List File) (one : File)
        → Contains (distinct files) one ↔ Contains files one }
    ensures once { (files : List File) → IsDistinct is_same (distinct files) }
    ensures first { (files others : List File)
        → distinct (files ++ others)
        ≡ distinct files ++ filter (is_absent files) (distinct others) }
{}

/// No path of a user is missed, and no file of a host.
pub fn no_file_is_missed()
    ensures users { (settings : List Configuration) (users : List Account) (asked : Bool)
        (files : List File) → files_at settings users asked ≡ Ok files
        → (one : Configuration) (user : Account) (word : List ℕ) → Contains settings one
        → Contains users user → Contains (patterns_of one.files) word
        → Contains files (file Keys (path_of user word)) }
    ensures hosts { (settings : List Configuration) (users : List Account) (asked : Bool)
        (files : List File) → files_at settings users asked ≡ Ok files
        → (one : Configuration) (other : File) → Contains settings one
        → Contains (host_files one asked) other → Contains files other }
{}

/// A word of known tokens stands for one text, and another word for none.
pub fn word_stands_for_one_text()
    ensures found { (user : Account) (word : List ℕ) → is_pattern false word ≡ true
        → Expands user word (expansion user false word) }
    ensures only { (user : Account) (word text : List ℕ) → Expands user word text
        → (is_pattern false word ≡ true) × (expansion user false word ≡ text) }
{}

/// The text of a word with `%u` has the name of the user.
pub fn text_names_user()
    ensures { (user : Account) (front back : List ℕ) → is_pattern false front ≡ true
        → expansion user false (front ++ (codes "%u" ++ back))
        ≡ expansion user false front ++ (user.name ++ expansion user false back) }
{}
