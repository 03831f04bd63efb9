//! Where links lead.
use crate::scanning::is_passive;
use indexmap::IndexMap;
use ioc_fields::{CommonField, FieldKind, FieldNo, LinkRole, RecordType, field, kind_of};
use ioc_links::{Flags, Link, MAX_DEVICE_BYTES, Target, parse};
use ioc_site::Word;
use ioc_site_records::{
    FieldOf, Meant, Named, Report, Setting, Shown, Site, SiteRecord, settable_names,
};
use ioc_spelling::nearest;
use ioc_values::Short;
use std::alloc::AllocError;
use std::str;

/// A link that leads to a field of a record.
#[derive(Clone, Copy)]
pub struct Lead<'a> {
    /// The number of the record that has the link.
    pub from: usize,
    pub field: FieldNo,
    pub role: LinkRole,
    pub flags: Flags,
    /// The number of the record that the link names.
    pub to: usize,
    pub target: FieldNo,
    /// The text of the link.
    pub word: &'a Word,
}

impl Lead<'_> {
    /// Returns whether the record that the link names is requested if it is passive.
    pub fn requests_passive(&self) -> bool {
        self.role == LinkRole::Forward || self.flags.process_passive
    }

    /// Returns whether the record that the link names is requested whatever its SCAN is: a value is
    /// written to its PROC.
    pub fn requests_always(&self) -> bool {
        self.role == LinkRole::Output && self.target == FieldNo::Common(CommonField::Proc)
    }
}

/// The links of a site that lead to fields, and what others may have been meant for.
#[derive(Drop)]
pub struct Followed<'a> {
    /// The links, in the order of their records.
    pub leads: Vec<Lead<'a>>,
    /// The numbers of the records that links which lead nowhere were probably meant for.
    pub meant: Vec<usize>,
}

/// How many names that are no record's are compared with all names. More of them are reported
/// without a guess.
const MOST_GUESSES: u32 = 100;

/// The links of a site that are looked at one after another.
#[derive(Drop)]
struct Follower<'s, 'a> {
    site: &'s Site<'a>,
    /// The record that owns each device: the first that names it.
    owners: IndexMap<Short<MAX_DEVICE_BYTES>, usize>,
    leads: Vec<Lead<'a>>,
    meant: Vec<usize>,
    /// The names of all records, and all aliases.
    names: Vec<&'a str>,
    guesses: u32,
}

/// A link field that is looked at.
#[derive(Clone, Copy)]
struct LinkOf<'a> {
    from: usize,
    owner: FieldOf<'a>,
    role: LinkRole,
    word: &'a Word,
}

impl<'s, 'a> Follower<'s, 'a> {
    fn new(site: &'s Site<'a>, report: &Report) -> Result<Self, AllocError> {
        let alloc = report.alloc;
        let mut names = Vec::new(alloc);
        for record in site.records.iter() {
            add_name(&mut names, record.name)?;
        }
        for alias in site.aliases.iter() {
            add_name(&mut names, alias.word)?;
        }
        Ok(Follower {
            site,
            owners: IndexMap::new(alloc),
            leads: Vec::new(alloc),
            meant: Vec::new(alloc),
            names,
            guesses: 0,
        })
    }

    // Reports a link to a record that isn't there.
    fn report_missing(
        &mut self,
        link: &LinkOf<'a>,
        target: &Target,
        report: &mut Report,
    ) -> Result<(), AllocError> {
        let name = target.record_name.as_slice();
        if report.lacks_records || report.is_refused_name(name) {
            return Ok(());
        }
        let mut meant = Meant(None);
        if self.guesses < MOST_GUESSES {
            self.guesses = self.guesses.saturating_add(1);
            meant = Meant(nearest(report.alloc, name, self.names.as_slice())?);
        }
        if let Some(name) = meant.0
            && let Some(named) = self.site.find(name.as_bytes())
        {
            self.meant.push(named.record)?;
        }
        let (owner, shown) = (link.owner, Shown(name));
        let text = format!(in report.alloc;
            "{owner} names {shown}, and there is no such record{meant}"
        )?;
        report.warning(link.word.place, text)
    }

    // Adds a link to a field that is there.
    fn add_lead(
        &mut self,
        link: &LinkOf<'a>,
        flags: Flags,
        named: Named,
        target: FieldNo,
        report: &mut Report,
    ) -> Result<(), AllocError> {
        let lead = Lead {
            from: link.from,
            field: link.owner.field,
            role: link.role,
            flags,
            to: named.record,
            target,
            word: link.word,
        };
        self.leads.push(lead)?;
        let Some(record) = self.site.records.get(named.record) else {
            return Ok(());
        };
        let requests = lead.requests_passive() && !lead.requests_always();
        if !requests || record.is_faulty || is_passive(record) {
            return Ok(());
        }
        let (owner, shown) = (link.owner, Shown(record.name.text.as_slice()));
        let text = format!(in report.alloc;
            "{owner} doesn't process {shown}, whose SCAN isn't Passive"
        )?;
        report.warning(link.word.place, text)
    }

    // Adds a link to a record.
    fn add_database(
        &mut self,
        link: &LinkOf<'a>,
        target: &Target,
        flags: Flags,
        report: &mut Report,
    ) -> Result<(), AllocError> {
        let Some(named) = self.site.find(target.record_name.as_slice()) else {
            return self.report_missing(link, target, report);
        };
        let Some(record) = self.site.records.get(named.record) else {
            return Ok(());
        };
        let Some(record_type) = record.record_type else {
            return Ok(());
        };
        match field(record_type, target.field.as_slice()) {
            Some(found) if is_expression(record_type, found) => {
                report_expression_field(link, target, report)?;
            }
            Some(found) if !is_link(record_type, found) => {
                return self.add_lead(link, flags, named, found, report);
            }
            _ if record.has_two_types => {}
            Some(_) => report_link_field(link, target, report)?,
            None => report_no_field(link, record, record_type, target, report)?,
        }
        Ok(self.meant.push(named.record)?)
    }

    // Adds a link to a device.
    fn add_device(
        &mut self,
        link: &LinkOf<'a>,
        device: &Short<MAX_DEVICE_BYTES>,
        report: &mut Report,
    ) -> Result<(), AllocError> {
        let Some(number) = self.owners.get(device).copied() else {
            self.owners.insert(*device, link.from)?;
            return Ok(());
        };
        let Some(record) = self.site.records.get(number) else {
            return Ok(());
        };
        let (owner, shown) = (link.owner, Shown(device.as_slice()));
        let (holder, at) = (
            Shown(record.name.text.as_slice()),
            self.site.at(record.name.place),
        );
        let text = format!(in report.alloc;
            "{owner} names device '{shown}', which record {holder} of {at} owns; it leads nowhere"
        )?;
        report.warning(link.word.place, text)
    }

    // Looks at a field that the text of a record sets.
    fn add_setting(
        &mut self,
        from: usize,
        record: &SiteRecord<'a>,
        setting: &Setting<'a>,
        report: &mut Report,
    ) -> Result<(), AllocError> {
        let Some(record_type) = record.record_type else {
            return Ok(());
        };
        let Some(FieldKind::Link(role)) = kind_of(record_type, setting.field) else {
            return Ok(());
        };
        let owner = FieldOf {
            field: setting.field,
            record: record.name.text.as_slice(),
        };
        let word = setting.value;
        let link = LinkOf {
            from,
            owner,
            role,
            word,
        };
        let Ok(found) = parse(role.link_kind(), word.text.as_slice()) else {
            return Ok(());
        };
        match &found {
            Link::Database(target, flags) => self.add_database(&link, target, *flags, report),
            Link::Device(device) => self.add_device(&link, device, report),
            Link::Empty | Link::Constant(_) | Link::Real(_) => Ok(()),
        }
    }
}

// Adds a name, if it is a text.
fn add_name<'a>(names: &mut Vec<&'a str>, word: &'a Word) -> Result<(), AllocError> {
    if let Ok(name) = str::from_utf8(word.text.as_slice()) {
        names.push(name)?;
    }
    Ok(())
}

// Returns whether the type has the field with an expression.
fn is_expression(record_type: RecordType, field: FieldNo) -> bool {
    matches!(kind_of(record_type, field), Some(FieldKind::Expression))
}

// Returns whether the type has the field as a link field.
fn is_link(record_type: RecordType, field: FieldNo) -> bool {
    matches!(kind_of(record_type, field), Some(FieldKind::Link(_)))
}

// Reports a link to a field that isn't there.
fn report_no_field(
    link: &LinkOf<'_>,
    record: &SiteRecord<'_>,
    record_type: RecordType,
    target: &Target,
    report: &mut Report,
) -> Result<(), AllocError> {
    let name = target.field.as_slice();
    let names = settable_names(report.alloc, record_type)?;
    let meant = Meant(nearest(report.alloc, name, names.as_slice())?);
    let (owner, shown) = (link.owner, Shown(name));
    let (holder, kind) = (Shown(record.name.text.as_slice()), record_type.name());
    let text = format!(in report.alloc;
        "{owner} names field {shown}, which record {holder} ({kind}) doesn't have{meant}"
    )?;
    report.warning(link.word.place, text)
}

// Reports a link to a field that holds an expression.
fn report_expression_field(
    link: &LinkOf<'_>,
    target: &Target,
    report: &mut Report,
) -> Result<(), AllocError> {
    let (owner, shown) = (link.owner, Shown(target.field.as_slice()));
    let text = format!(in report.alloc;
        "{owner} names the expression {shown}, and leads nowhere here; name VAL"
    )?;
    report.warning(link.word.place, text)
}

// Reports a link to a link field.
fn report_link_field(
    link: &LinkOf<'_>,
    target: &Target,
    report: &mut Report,
) -> Result<(), AllocError> {
    let (owner, shown) = (link.owner, Shown(target.field.as_slice()));
    let text = format!(in report.alloc;
        "{owner} names the link field {shown}, and leads nowhere here; name VAL"
    )?;
    report.warning(link.word.place, text)
}

/// Returns the links that lead to fields, and reports those that lead nowhere.
///
/// # Errors
///
/// [`AllocError`] if allocation fails.
pub fn follow_links<'a>(site: &Site<'a>, report: &mut Report) -> Result<Followed<'a>, AllocError> {
    let mut follower = Follower::new(site, report)?;
    for (number, record) in site.records.iter().enumerate() {
        for setting in record.settings.iter() {
            follower.add_setting(number, record, setting, report)?;
        }
    }
    let Follower { leads, meant, .. } = follower;
    Ok(Followed { leads, meant })
}
