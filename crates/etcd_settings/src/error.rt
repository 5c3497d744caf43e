//! Why settings are refused, and the text of it.
ghost use Rattle.std.specs.Prelude.{◌≡◌};
ghost use Rattle.etcd_settings.specs.Lines.{error_path, error_missing, member_path, missing as member_missing};

use std::alloc::AllocError;

/// Why settings were not read.
#[derive(Clone, Copy, PartialEq, Eq)]
pub enum SettingsError {
    NotJson,
    /// The member is not what it has to be.
    Shape(Member),
    /// A user is named, and no file with the password.
    NoPasswordFile,
    /// A file with a password is named, and no user.
    NoUser,
    /// The member is there, and the journal is not in etcd.
    NotInEtcd(Member),
    Memory,
}

/// A member of `allocator`, or a part of it.
#[derive(Clone, Copy, Debug, PartialEq, Eq)]
pub enum Member {
    /// The part of `journal` that says where etcd is reached.
    Endpoints,
    /// The part of `journal` that says under which keys it is.
    Prefix,
    Advertise,
    Lease,
    User,
    PasswordFile,
}

impl SettingsError {
    /// The way to the member from the document.
    pub fn path(self) -> &'static str
        ensures { result.now ≡ error_path self }
    {
        match self {
            SettingsError::NotJson | SettingsError::Memory => "document",
            SettingsError::Shape(member) => member.path(),
            SettingsError::NotInEtcd(member) => member.path(),
            SettingsError::NoPasswordFile => Member::User.path(),
            SettingsError::NoUser => Member::PasswordFile.path(),
        }
    }

    /// What is wrong with it, and what would be right.
    pub fn missing(self) -> &'static str
        ensures { result.now ≡ error_missing self }
    {
        match self {
            SettingsError::NotJson => "no JSON",
            SettingsError::Shape(member) => member.missing(),
            SettingsError::NoPasswordFile => {
                "no allocator.etcd_password_file beside it: name the file that has the user's password"
            }
            SettingsError::NoUser => {
                "no allocator.etcd_user beside it: name the user whose password the file has"
            }
            SettingsError::NotInEtcd(_) => {
                "the journal is not in etcd: leave this out, or name a journal as etcd://10.0.0.5:2379/allocd/prod"
            }
            SettingsError::Memory => "no memory",
        }
    }
}

impl Member {
    fn path(self) -> &'static str
        ensures { result.now ≡ member_path self }
    {
        match self {
            Member::Endpoints | Member::Prefix => "allocator.journal",
            Member::Advertise => "allocator.advertise",
            Member::Lease => "allocator.lease",
            Member::User => "allocator.etcd_user",
            Member::PasswordFile => "allocator.etcd_password_file",
        }
    }

    fn missing(self) -> &'static str
        ensures { result.now ≡ member_missing self }
    {
        match self {
            Member::Endpoints => {
                "no hosts with ports behind etcd://, with commas between them, as in etcd://10.0.0.5:2379,10.0.0.6:2379/allocd/prod"
            }
            Member::Prefix => {
                "no names behind the hosts, with slashes between them, as allocd/prod in etcd://10.0.0.5:2379/allocd/prod"
            }
            Member::Advertise => "no URL without a slash at its end, as http://10.0.0.7:8080 is",
            Member::Lease => "no duration from 2s to 1m",
            Member::User => "no name of a user",
            Member::PasswordFile => "no path of a file",
        }
    }
}

impl From<AllocError> for SettingsError {
    ghost use Rattle.std.specs.Prelude.{◌≡◌};
    ghost use Rattle.etcd_settings.specs.declared.error.SettingsError.TheVariants.{Memory};

    ghost from_gives = { λ _ e. e ≡ Memory };

    fn from(_refused: AllocError) -> SettingsError {
        SettingsError::Memory
    }
}
