//! The commands of the program, their options and their limits.

ghost use Rattle.std.specs.Prelude.{◌≡◌, IfSome, IsNone};
ghost use Rattle.bpfcanon.specs.{declared.verb.Verb.Verb, commands.Reply.limit_of};
ghost use Rattle.bpfcanon.specs.Verbs.{name_of, setting_name, takes_setting};

use bpf_canon::{BTF_LIMIT, INSN_LIMIT};

/// A command of the program.
#[derive(Clone, Copy, Debug, PartialEq, Eq)]
pub enum Verb {
    /// `insn-canon`: writes instructions in canonical form, in the byte order `--to`.
    InsnCanon,
    /// `insn-show`: lists instructions.
    InsnShow,
    /// `insn-read`: encodes the instructions of a listing, in the byte order `--to`.
    InsnRead,
    /// `insn-groups`: lists the conformance groups of instructions.
    InsnGroups,
    /// `insn-same`: compares the instructions of two files.
    InsnSame,
    /// `btf-canon`: writes BTF in canonical form, in the byte order `--to`.
    BtfCanon,
    /// `btf-show`: lists the types of BTF.
    BtfShow,
    /// `btf-check`: validates BTF and counts its types, without `void`.
    BtfCheck,
    /// `btf-same`: compares the types of two BTF files.
    BtfSame,
}

/// An option of a command.
#[derive(Clone, Copy, Debug, PartialEq, Eq)]
pub enum Setting {
    /// `--order`: the byte order of the input, or of the first file.
    Order,
    /// `--to`: the byte order of the output.
    To,
    /// `--other`: the byte order of the second file.
    Other,
    /// `--split`: the length of the first file in bytes.
    Split,
}

impl Verb {
    /// All commands.
    #[rattlefmt::skip]
    pub const ALL: [Verb; 9] = [
        Verb::InsnCanon, Verb::InsnShow, Verb::InsnRead, Verb::InsnGroups, Verb::InsnSame,
        Verb::BtfCanon, Verb::BtfShow, Verb::BtfCheck, Verb::BtfSame,
    ];

    /// The name of the command on the command line, such as `insn-canon`.
    pub fn name<'a>(self) -> &'a str
        ensures { result.now ≡ name_of self }
    {
        match self {
            Verb::InsnCanon => "insn-canon",
            Verb::InsnShow => "insn-show",
            Verb::InsnRead => "insn-read",
            Verb::InsnGroups => "insn-groups",
            Verb::InsnSame => "insn-same",
            Verb::BtfCanon => "btf-canon",
            Verb::BtfShow => "btf-show",
            Verb::BtfCheck => "btf-check",
            Verb::BtfSame => "btf-same",
        }
    }

    /// The command with a name. `None` if no command has it.
    pub fn named(name: &str) -> Option<Verb>
        ensures some { IfSome result (λ verb. name.now ≡ name_of verb) }
        ensures none { IsNone result → (verb : Verb) → name.now ≡ name_of verb → ⊥ }
    {
        for verb in Verb::ALL {
            if verb.name() == name {
                return Some(verb);
            }
        }
        None
    }

    /// Whether the command accepts an option.
    pub fn takes(self, setting: Setting) -> bool
        ensures { result ≡ takes_setting self setting }
    {
        match self {
            Verb::InsnCanon => matches!(setting, Setting::Order | Setting::To),
            Verb::InsnShow | Verb::InsnGroups => matches!(setting, Setting::Order),
            Verb::InsnRead | Verb::BtfCanon => matches!(setting, Setting::To),
            Verb::InsnSame => matches!(setting, Setting::Order | Setting::Other | Setting::Split),
            Verb::BtfShow | Verb::BtfCheck => false,
            Verb::BtfSame => matches!(setting, Setting::Split),
        }
    }

    /// The longest input of the command in bytes: the limit of the engines, or twice that if the
    /// command reads two files.
    pub fn limit(self) -> u64
        ensures { result ≡ limit_of self }
    {
        match self {
            Verb::InsnCanon | Verb::InsnShow | Verb::InsnRead | Verb::InsnGroups => INSN_LIMIT,
            Verb::InsnSame => 2 * INSN_LIMIT,
            Verb::BtfCanon | Verb::BtfShow | Verb::BtfCheck => BTF_LIMIT,
            Verb::BtfSame => 2 * BTF_LIMIT,
        }
    }
}

impl Setting {
    /// All options.
    pub const ALL: [Setting; 4] = [Setting::Order, Setting::To, Setting::Other, Setting::Split];

    /// The name of the option, without its two dashes.
    pub fn name<'a>(self) -> &'a str
        ensures { result.now ≡ setting_name self }
    {
        match self {
            Setting::Order => "order",
            Setting::To => "to",
            Setting::Other => "other",
            Setting::Split => "split",
        }
    }
}
