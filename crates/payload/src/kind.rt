// The types of request that the box handles, by their numbers in a message.
ghost use Rattle.payload.specs.Kinds.{IsKind};

#[derive(Clone, Copy, Debug, PartialEq, Eq)]
pub enum Kind {
    Directory,
    Read,
    GetPerms,
    Watch,
    Unwatch,
    Start,
    End,
    Introduce,
    Release,
    DomainPath,
    Write,
    Mkdir,
    Rm,
    SetPerms,
    IsIntroduced,
    Reset,
}

impl Kind {
    // The kind of a type's number, if it is handled.
    pub fn of(number: u32) -> Option<Kind>
        ensures { IsKind number result }
    {
        match number {
            1 => Some(Kind::Directory),
            2 => Some(Kind::Read),
            3 => Some(Kind::GetPerms),
            4 => Some(Kind::Watch),
            5 => Some(Kind::Unwatch),
            6 => Some(Kind::Start),
            7 => Some(Kind::End),
            8 => Some(Kind::Introduce),
            9 => Some(Kind::Release),
            10 => Some(Kind::DomainPath),
            11 => Some(Kind::Write),
            12 => Some(Kind::Mkdir),
            13 => Some(Kind::Rm),
            14 => Some(Kind::SetPerms),
            17 => Some(Kind::IsIntroduced),
            21 => Some(Kind::Reset),
            _ => None,
        }
    }
}
